//! The queues of no level.
ghost use Rattle.std.specs.Prelude.{◌≡◌, ◌<◌, [], ◌∷◌, ◌++◌, vec_len, vec_capacity};
ghost use Rattle.price_level.specs.Inner.Table.{Takes};

/// A queue for a new level: the one that was freed last, or else the next one, which never was in use.
pub(crate) fn take_queue(free: &mut Vec<u32>, next: u32) -> u32
    ensures takes { Takes next free.old.items free.new.items result }
    ensures capacity { vec_capacity free.new ≡ vec_capacity free.old }
{
    match free.pop() {
        Some(queue) => queue,
        None => next,
    }
}

/// A queue is free again.
pub(crate) fn give_back(free: &mut Vec<u32>, queue: u32)
    requires room { vec_len free.old < vec_capacity free.old }
    ensures items { free.new.items ≡ free.old.items ++ queue ∷ [] }
    ensures capacity { vec_capacity free.new ≡ vec_capacity free.old }
{
    free.push_reserved(queue);
}
