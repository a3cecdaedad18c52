// What lent bytes are filled with before a request, by which it is seen afterwards which of them changed.
ghost use Rattle.std.specs.Prelude.{◌≡◌, ◌↔◌, IsTrue, length};
ghost use Rattle.requests.specs.Pattern.{pattern_byte, patterned, IsUntouched};

fn pattern(i: usize) -> u8
    ensures { result ≡ pattern_byte i }
{
    (i % 251) as u8
}

pub fn fill(bytes: &mut [u8])
    ensures { bytes.new ≡ patterned (length bytes.old) }
{
    for (i, b) in bytes.iter_mut().enumerate() {
        *b = pattern(i);
    }
}

// Whether the bytes from one index up to another, or to the end, are as they were filled.
pub fn is_untouched(bytes: &[u8], from: usize, to: usize) -> bool
    ensures { IsTrue result ↔ IsUntouched bytes.now from to }
{
    (from..to.min(bytes.len())).all(|i| bytes[i] == pattern(i))
}
