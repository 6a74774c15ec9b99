// The bad frames of a slip, in order of pull.
ghost use Rattle.std.specs.Prelude.{◌≡◌, [], ◌∷◌, map};
ghost use Rattle.draws.specs.Entries.{state_of};
ghost use Rattle.film.specs.Faults.{refusal_of};
ghost use Rattle.film.specs.Refusals.{given, reading};
ghost use Rattle.slip.specs.Answers.{all_addressed};
ghost use Rattle.slip.specs.Cursors.{HasRoom, Wrote};
ghost use Rattle.slip.specs.Fields.{bad_frames, field_bytes, frame_field, is_bad};
ghost use Rattle.std.specs.List.{flat_map};

use crate::put::{Cursor, Number, Tag};
use draws::entry::{Entry, State};
use film::address::AddressFault;
use film::lookup::address_of;
use film::scheme::Scheme;

// Refuses the first bad frame that has no address in the scheme.
pub fn check_addresses<S: Scheme>(
    scheme: &S,
    reel: u32,
    pulled: &[Entry],
) -> Result<(), AddressFault>
    ensures { reading refusal_of result ≡ all_addressed (S.Scheme.meaning scheme.now) reel (bad_frames pulled.now) }
{
    // no plainer by filter: its turns also need a proof that the entries it skips add nothing
    for entry in pulled {
        if is_bad(entry) {
            address_of(scheme, reel, entry.frame)?;
        }
    }
    Ok(())
}

fn is_bad(entry: &Entry) -> bool
    ensures { result ≡ is_bad (state_of entry.now) }
{
    entry.state == State::Bad
}

impl<'b> Cursor<'b> {
    // One field for each bad frame, once it is known that all have an address.
    pub fn bad_frames<S: Scheme>(&mut self, scheme: &S, reel: u32, pulled: &[Entry])
        requires room { HasRoom self.old (flat_map field_bytes (map (frame_field (S.Scheme.meaning scheme.now)) (bad_frames pulled.now))) }
        requires addressed { all_addressed (S.Scheme.meaning scheme.now) reel (bad_frames pulled.now) ≡ given tt }
        ensures { Wrote self.old (flat_map field_bytes (map (frame_field (S.Scheme.meaning scheme.now)) (bad_frames pulled.now))) self.new }
    {
        for entry in pulled {
            if is_bad(entry) {
                self.bad_frame(scheme, reel, entry.frame);
            }
        }
    }

    fn bad_frame<S: Scheme>(&mut self, scheme: &S, reel: u32, frame: u32)
        requires room { HasRoom self.old (field_bytes (frame_field (S.Scheme.meaning scheme.now) frame)) }
        requires addressed { all_addressed (S.Scheme.meaning scheme.now) reel (frame ∷ []) ≡ given tt }
        ensures { Wrote self.old (field_bytes (frame_field (S.Scheme.meaning scheme.now) frame)) self.new }
    {
        let Ok(address) = address_of(scheme, reel, frame) else {
            unreachable()
        };
        let value = [
            Number::One(scheme.slip_code()),
            Number::Four(address.whole),
            // a unit holds at most 256 frames
            Number::One(address.part as u8),
        ];
        self.field(Tag::BadFrame, &value);
    }
}
