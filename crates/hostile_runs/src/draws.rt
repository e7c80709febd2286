//! Drawn numbers.

/// Numbers that depend on a seed and on the number of a case alone.
#[derive(Clone, Copy)]
pub struct Draws {
    state: u64,
}

impl Draws {
    pub fn new(seed: u64, case: u64) -> Draws {
        let mut of_seed = Draws { state: seed };
        let state = of_seed.word().wrapping_add(case);
        Draws { state }
    }

    /// Any number: one step of splitmix64.
    pub fn word(&mut self) -> u64 {
        self.state = self.state.wrapping_add(0x9e37_79b9_7f4a_7c15);
        let state = self.state;
        let mixed = (state ^ (state >> 30)).wrapping_mul(0xbf58_476d_1ce4_e5b9);
        let mixed = (mixed ^ (mixed >> 27)).wrapping_mul(0x94d0_49bb_1331_11eb);
        mixed ^ (mixed >> 31)
    }

    /// A number below this one, and 0 where it is 0.
    pub fn below(&mut self, count: usize) -> usize {
        let drawn = self.word();
        if count == 0 {
            0
        } else {
            (drawn % count as u64) as usize
        }
    }

    /// Any byte.
    pub fn byte(&mut self) -> u8 {
        (self.word() & 0xff) as u8
    }

    /// One of some bytes, and 0 where there is none.
    pub fn byte_of(&mut self, bytes: &[u8]) -> u8 {
        match bytes.get(self.below(bytes.len())) {
            Some(byte) => *byte,
            None => 0,
        }
    }

    /// One of some texts, and the empty one where there is none.
    pub fn text_of(&mut self, texts: &[&'static str]) -> &'static str {
        match texts.get(self.below(texts.len())) {
            Some(text) => text,
            None => "",
        }
    }

    /// Whether the one of so many cases is drawn.
    pub fn is_one_in(&mut self, count: usize) -> bool {
        self.below(count) == 0
    }
}
