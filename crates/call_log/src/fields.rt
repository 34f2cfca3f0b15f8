// The text of a line, put into a lent array field by field.
ghost use Rattle.std.specs.Prelude.{[], ◌∷◌, map};
ghost use Rattle.float32.specs.Helpers.{to_bits};
ghost use Rattle.digits.specs.Digits.{decimal};
ghost use Rattle.call_log.specs.Lines.{bits_field, with_fields, Adds};

// The longest line: a number of 20 digits, the state, the bits, a refusal of 3 digits, 256 listed bytes of 3 digits, and the LF.
pub const LINE: usize = 1_060;

// The array, and where the next field starts. What has no room there is not written.
#[derive(Drop)]
pub(crate) struct Text<'a> {
    pub(crate) out: &'a mut [u8],
    pub(crate) at: usize,
}

impl Text<'_> {
    // One byte.
    pub(crate) fn byte(&mut self, b: u8)
        ensures { Adds (b ∷ []) self.old self.new }
    {
        if self.at < self.out.len() {
            self.out[self.at] = b;
            self.at += 1;
        }
    }

    // A word.
    pub(crate) fn word(&mut self, word: &[u8])
        ensures { Adds word.now self.old self.new }
    {
        for b in word {
            self.byte(*b);
        }
    }

    // A number in decimal.
    pub(crate) fn decimal(&mut self, n: usize)
        ensures { Adds (decimal n) self.old self.new }
    {
        self.at += digits::put_decimal(n, self.out, self.at).unwrap_or(0);
    }

    // A space and a number.
    pub(crate) fn number(&mut self, n: usize)
        ensures { Adds (32 ∷ decimal n) self.old self.new }
    {
        self.byte(b' ');
        self.decimal(n);
    }

    // A space and a letter.
    pub(crate) fn letter(&mut self, letter: u8)
        ensures { Adds (32 ∷ letter ∷ []) self.old self.new }
    {
        self.byte(b' ');
        self.byte(letter);
    }

    // A space and a float's bits.
    pub(crate) fn bits(&mut self, x: f32)
        ensures { Adds (32 ∷ bits_field (to_bits x)) self.old self.new }
    {
        self.byte(b' ');
        self.at += digits::put_hex8(float32::to_bits(x), self.out, self.at).unwrap_or(0);
    }

    // The numbers of the list.
    pub(crate) fn list(&mut self, list: &[u8])
        ensures { Adds (with_fields [] (map decimal list.now)) self.old self.new }
    {
        for listed in list {
            self.number(usize::from(*listed));
        }
    }
}
