//! Where the bytes of packets stand in their message.
ghost use Rattle.std.specs.Prelude.{◌≡◌, ◌≤◌, ◌<◌, ◌+◌, ◌*◌, ◌-◌, ◌||◌, ◌==◌, min, nat_lt, IfSome};
ghost use Rattle.std.specs.Bool.{then_some};

/// Bytes of a message: where they begin in it, and how many they are.
#[derive(Clone, Copy, Debug, PartialEq, Eq)]
pub struct Span {
    pub offset: u64,
    pub length: u64,
}

/// The span of a packet that stands alone, if that is the number of the first one.
pub fn alone(number: usize, length: u64) -> Option<Span>
    ensures span { result ≡ then_some (number == 0) (record { offset = 0; length = length }) }
    ensures within { IfSome result (λ span. span.offset + span.length ≤ length) }
    ensures few { IfSome result (λ _. number < usize.MAX) }
{
    (number == 0).then_some(Span { offset: 0, length })
}

/// The span of the piece of that number, where so many bytes are cut into pieces that are as full
/// as the size allows. Bytes that are none are one piece.
pub fn piece(size: u64, length: u64, number: usize) -> Option<Span>
    requires { 0 < size }
    ensures span { result ≡ then_some (number == 0 || nat_lt (number * size) length) (record { offset = number * size; length = min size (length - number * size) }) }
    ensures within { IfSome result (λ span. span.offset + span.length ≤ length) }
    ensures few { IfSome result (λ _. number < usize.MAX) }
{
    let offset = place_of(size, length, number)?;
    Some(Span {
        offset,
        length: size.min(length - offset),
    })
}

/// Where the piece of that number begins, if so many bytes have one.
fn place_of(size: u64, length: u64, number: usize) -> Option<u64>
    ensures { result ≡ then_some (number == 0 || nat_lt (number * size) length) (number * size) }
{
    let place = (number as u64).checked_mul(size)?;
    if number == 0 || place < length {
        Some(place)
    } else {
        None
    }
}
