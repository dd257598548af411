// The name of a file: a letter and a number of two digits.
ghost use Rattle.std.specs.Prelude.{◌≡◌, ◌<◌, ◌+◌, ◌/◌, ◌%◌, List, [], ◌∷◌};
ghost use Rattle.std.specs.Str.{IsAscii};

#[derive(Clone, Copy)]
pub struct Name {
    pub bytes: [u8; 3],
    ghost ascii: { IsAscii bytes },
}

impl Name {
    pub fn new(letter: u8, number: u8) -> Name
        requires { (letter < 128) × (number < 100) }
        ensures { result.bytes ≡ letter ∷ (48 + number / 10) ∷ (48 + number % 10) ∷ [] }
    {
        Name {
            bytes: [letter, b'0' + number / 10, b'0' + number % 10],
        }
    }

    pub fn as_str(&self) -> &str
        ensures { result.now ≡ self.now.bytes }
    {
        str::from_utf8(&self.bytes).unwrap()
    }
}
