// What the fault of every layer says: a number, a place, and the letters of the layers that it went through.
ghost use Rattle.std.specs.Prelude.{◌≡◌, Some};
ghost use Rattle.film.specs.Refusals.{Refusal, refusal_text};

use std::fmt;

pub trait Fault {
    ghost refusal: { Self → Refusal };

    fn number(&self) -> u32
        ensures { result ≡ (refusal self.now).number };

    fn place(&self) -> u32
        ensures { result ≡ (refusal self.now).place };

    fn layers(&self) -> &'static str
        ensures { result.now ≡ (refusal self.now).layers };
}

// A fault as it is printed.
#[derive(Drop)]
pub struct Printed<'a, F>(pub &'a F);

impl<F: Fault> fmt::Display for Printed<'_, F> {
    ghost output = { λ printed. Some (refusal_text (F.refusal printed.0.now)) };

    fn fmt<W: fmt::Write>(&self, f: &mut fmt::Formatter<W>) -> fmt::Result {
        let number = self.0.number();
        let place = self.0.place();
        let layers = self.0.layers();
        write!(f, "no {number} {place} {layers}")
    }
}
