// The next bytes of a line, which are kept as they come: how many they are, and all of them at once.
ghost use Rattle.std.specs.Prelude.{◌≡◌, ◌+◌, ◌≤◌, length};
ghost use Rattle.lines.specs.Pieces.{PIECE};
ghost use Rattle.intake.specs.Intake.{placed};
ghost use Rattle.intake.specs.Stretch.{line_rest, open_for, stretch_of, longer};

use crate::Intake;

// How many bytes stand in front of the first line feed, or all of them.
#[tactic(auto, using(crate::proofs::Stretches::found_rest))]
fn line_rest(part: &[u8]) -> usize
    ensures count { result ≡ line_rest part.now }
    ensures within { result ≤ length part.now }
{
    memchr::memchr(b'\n', part).unwrap_or(part.len())
}

impl Intake {
    // How many bytes without a line feed are kept as they come, where the store has so much room.
    #[tactic(auto, unfolding(crate::specs::Stretch::open_for))]
    fn open_for(self, room: usize) -> usize
        ensures { result ≡ open_for self room }
    {
        if self.left == 0 {
            return 0;
        }
        lines::PIECE.saturating_sub(self.run).min(room)
    }

    // How many of the next bytes are a stretch: those in front of a line feed, as far as their piece and the store have room for them.
    #[tactic(auto, unfolding(crate::specs::Stretch::stretch_of))]
    pub(crate) fn stretch_of(self, room: usize, bytes: &[u8]) -> usize
        ensures count { result ≡ stretch_of self room bytes.now }
        ensures within { result ≤ length bytes.now }
    {
        let most = self.open_for(room).min(bytes.len());
        line_rest(&bytes[..most])
    }

    // Takes in a stretch of a line at once.
    pub(crate) fn take_stretch(self, store: &mut [u8], part: &[u8]) -> Intake
        requires { (self.n + length part.now ≤ length store.old) × (self.run + length part.now ≤ PIECE) }
        ensures state { result ≡ longer self (length part.now) }
        ensures store { store.new ≡ placed store.old self.n part.now }
    {
        let end = self.n + part.len();
        store[self.n..end].copy_from_slice(part);
        Intake {
            n: end,
            run: self.run + part.len(),
            start: false,
            ..self
        }
    }
}
