//! Percentages of lots.
ghost use Rattle.std.specs.Prelude.{◌≡◌, ◌≤◌, ◌*◌, ◌/◌};

/// A percentage of some lots, rounded down.
pub fn percent_of(lots: u32, percent: u8) -> u32
    requires { percent ≤ 100 }
    ensures value { result ≡ lots * percent / 100 }
    ensures at_most { result ≤ lots }
{
    (u64::from(lots) * u64::from(percent) / 100) as u32
}
