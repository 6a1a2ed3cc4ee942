ghost use Rattle.std.specs.Prelude.{◌≡◌, ◌==◌, position};
ghost use Rattle.status_page.specs.Kinds.{kind_numbers};

/// How many kinds of frames there are.
pub const KINDS: usize = 33;

/// The numbers of the kinds, in the order of the formats.
pub const KIND_NUMBERS: [u8; KINDS] = [
    1, 2, 3, 4, 5, 6, 7, 8, 9, 16, 17, 18, 19, 32, 33, 34, 35, 36, 37, 38, 39, 40, 48, 49, 50, 51,
    52, 53, 54, 55, 56, 57, 58,
];

/// The names of the kinds, in the same order. A message with a length of its own has the kind of one without.
pub const KIND_NAMES: [&[u8]; KINDS] = [
    b"Hello",
    b"Offer",
    b"Take",
    b"Renew",
    b"RenewAck",
    b"Transfer",
    b"Gone",
    b"Seek",
    b"Found",
    b"Accuse",
    b"Ruled",
    b"Claim",
    b"Kept",
    b"Prepare",
    b"Prepared",
    b"NoPrepare",
    b"Vote",
    b"Voted",
    b"NoVote",
    b"DoneAsk",
    b"DoneKept",
    b"NoDone",
    b"Promise",
    b"Promised",
    b"Sync",
    b"Fetch",
    b"Piece",
    b"Adopted",
    b"Activate",
    b"Activated",
    b"Append",
    b"Appended",
    b"Older",
];

/// The place of a kind in their order.
pub fn kind_place(kind: u8) -> Option<usize>
    ensures { result ≡ position (λ k. k == kind) kind_numbers }
{
    KIND_NUMBERS.iter().position(|k| *k == kind)
}
