// The answer's words, or a text's bytes, written one after another into a lent buffer. What has no room is counted all the same, so that the length is known at any length.
#![tactic(auto)]

ghost use Rattle.std.specs.Prelude.{◌≡◌, [], ◌∷◌, ◌+◌, ◌<◌};
ghost use Rattle.writing.specs.Wrote.{farthest, Writes, Patches};

// A lent buffer, and where the next item goes.
// Kept: how far it may go (`farthest`) stands in each contract, as each function writes another number of items.
#[derive(Drop)]
pub struct Writer<'a, T> {
    pub buffer: &'a mut [T],
    pub at: usize,
}

impl<'a, T: Copy> Writer<'a, T> {
    // At the beginning of a buffer.
    pub fn new(buffer: &'a mut [T]) -> Self
        ensures at_start { result.at ≡ 0 }
        ensures items { result.buffer.now ≡ buffer.old }
        ensures same { result.buffer.ghost_name ≡ buffer.entry.ghost_name }
    {
        Writer { buffer, at: 0 }
    }

    // The next item.
    pub fn put(&mut self, item: T)
        requires { self.old.at < farthest }
        ensures { Writes (item ∷ []) self.old self.new }
    {
        if self.at < self.buffer.len() {
            self.buffer[self.at] = item;
        }
        self.at += 1;
    }

    // The next two items, with one test where both have room.
    pub fn put_pair(&mut self, first: T, second: T)
        requires { self.old.at + 1 < farthest }
        ensures { Writes (first ∷ second ∷ []) self.old self.new }
    {
        let at = self.at;
        if at + 1 < self.buffer.len() {
            self.buffer[at] = first;
            self.buffer[at + 1] = second;
        } else if at < self.buffer.len() {
            self.buffer[at] = first;
        }
        self.at = at + 2;
    }

    // The next three items, with one test where all have room.
    pub fn put_triple(&mut self, first: T, second: T, third: T)
        requires { self.old.at + 2 < farthest }
        ensures { Writes (first ∷ second ∷ third ∷ []) self.old self.new }
    {
        let at = self.at;
        if at + 2 < self.buffer.len() {
            self.buffer[at] = first;
            self.buffer[at + 1] = second;
            self.buffer[at + 2] = third;
            self.at = at + 3;
        } else {
            self.put_pair(first, second);
            self.put(third);
        }
    }

    // An item that was written before, once it is known.
    pub fn patch(&mut self, at: usize, item: T)
        ensures { Patches at item self.old self.new }
    {
        if at < self.buffer.len() {
            self.buffer[at] = item;
        }
    }
}
