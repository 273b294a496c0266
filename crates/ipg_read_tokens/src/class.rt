ghost use Rattle.std.specs.Prelude.{◌≡◌, ◌≤◌, length};
ghost use Rattle.ipg_read_tokens.specs.Lexical.{in_class, is_white as white, is_letter as letter, is_digit as digit, is_hexadecimal as hexadecimal, run};

/// Classes of bytes that a token, white space or a comment goes on with.
#[derive(Clone, Copy)]
pub enum Class {
    White,
    Comment,
    Naming,
    Digit,
    Hexadecimal,
}

impl Class {
    pub fn holds(self, b: u8) -> bool
        ensures { result ≡ in_class self b }
    {
        match self {
            Class::White => is_white(b),
            Class::Comment => b != b'\n',
            Class::Naming => is_letter(b) || is_digit(b),
            Class::Digit => is_digit(b),
            Class::Hexadecimal => is_hexadecimal(b),
        }
    }

    /// How many bytes from the front on are of the class.
    pub fn run(self, bytes: &[u8]) -> usize
        ensures count { result ≡ run self bytes.now }
        ensures within { result ≤ length bytes.now }
    {
        for (i, b) in bytes.iter().enumerate() {
            if !self.holds(*b) {
                return i;
            }
        }
        bytes.len()
    }
}

pub fn is_white(b: u8) -> bool
    ensures { result ≡ white b }
{
    b == b' ' || b == b'\t' || b == b'\n' || b == b'\r'
}

pub fn is_letter(b: u8) -> bool
    ensures { result ≡ letter b }
{
    (b'A' <= b && b <= b'Z') || (b'a' <= b && b <= b'z') || b == b'_'
}

pub fn is_digit(b: u8) -> bool
    ensures { result ≡ digit b }
{
    b'0' <= b && b <= b'9'
}

pub fn is_hexadecimal(b: u8) -> bool
    ensures { result ≡ hexadecimal b }
{
    (b'0' <= b && b <= b'9') || (b'A' <= b && b <= b'F') || (b'a' <= b && b <= b'f')
}
