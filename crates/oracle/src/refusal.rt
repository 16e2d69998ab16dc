// Why a command is refused, with the numbers of document 01's list.
// Document 01 leaves no room for a taking back that 11(1) alone forbids. It is answered by 99, and shows as a difference.
#[derive(Clone, Copy, PartialEq, Eq)]
pub enum Refusal {
    NoKind = 11,
    NoTransition = 12,
    BaseLacking = 13,
    BondLacking = 14,
    BondRepeated = 15,
    Forked = 16,
    Full = 17,
    NoKeyLeft = 18,
    NotLive = 19,
    DependedOn = 20,
    TooShort = 21,
    NoRoom = 99,
}
