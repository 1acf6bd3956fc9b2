// Fields packed one behind the other from bit 0 on, with zero bits to the byte: how a tree's table
// and a request list are laid out.
#![tactic(auto)]

ghost use Rattle.std.specs.Prelude.{◌≡◌};
ghost use Rattle.packed.specs.Parts as spec;

// Whether the bytes end at place: what is left from there on is zero bits to the byte, and no byte
// more.
#[tactic(auto, using(crate::proofs::Filling::ends_past, crate::proofs::Filling::ends_more))]
pub fn ends(bytes: &[u8], place: usize) -> bool
    ensures { result ≡ spec.ends bytes.now place }
{
    if fields::usable_bits(bytes.len()) < place {
        return false;
    }
    let whole = (place + 7) / 8;
    if bytes.len() != whole {
        return false;
    }
    match fields::get(bytes, place, 8 * whole - place) {
        Ok(filling) => filling == 0,
        Err(_) => false,
    }
}
