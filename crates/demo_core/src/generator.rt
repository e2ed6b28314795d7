//! The generator of numbers.

ghost use Rattle.std.specs.Prelude.{◌≡◌};
ghost use Rattle.demo_core.specs.Draws.{next_state, drawn_at};

/// A linear congruential generator of numbers below 32,768. They aren't random: everybody can tell
/// the next.
#[derive(Drop)]
pub(crate) struct Generator {
    pub(crate) state: u32,
}

impl Generator {
    /// The next number.
    pub(crate) fn draw(&mut self) -> u32
        ensures state { self.new.state ≡ next_state self.old.state }
        ensures drawn { result ≡ drawn_at self.new.state }
    {
        let next = (u64::from(self.state) * 1_103_515_245 + 12_345) % 0x8000_0000;
        self.state = next as u32;
        self.state / 0x1_0000
    }
}
