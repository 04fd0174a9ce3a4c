// Sets of pieces as bit masks: bit k says whether piece k is in the set. That a set is its number is a rule: codes and rows go by it.
ghost use Rattle.std.specs.Prelude.{◌≡◌, ◌==◌};
ghost use Rattle.layout.specs.Sets.{bit, with_piece, SetsAreNumbers};

// The pieces that a set has bits for.
const PIECES: u8 = 16;

// Whether the piece is in the set. A piece from 16 on is in none.
pub fn holds(set: u16, piece: u8) -> bool
    ensures { result ≡ ((bit piece set) == 1) }
{
    piece < PIECES && set >> piece & 1 == 1
}

// The set with this piece. A piece from 16 on changes no set.
pub fn with_piece(set: u16, piece: u8) -> u16
    ensures { result ≡ with_piece piece set }
{
    if piece < PIECES {
        set | 1 << piece
    } else {
        set
    }
}

// The number of a list of different pieces holds these and no others, and sets with the same pieces have one number.
pub fn sets_are_numbers()
    ensures { SetsAreNumbers }
{}
