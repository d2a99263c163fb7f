// What an answer line says of a refusal.

#![tactic(auto)]

// The layer that refused, the refusal's number in it, and the place that is to blame: 3.2 at field 1 is
// layer 3, number 2, place 1.
#[derive(Clone, Copy, PartialEq, Eq, Debug)]
pub struct Refusal {
    pub layer: u8,
    pub number: u8,
    pub place: u16,
}
