// The parts of a float's bits, as whole numbers: a finite value's size is its digits times 2^scale of the smallest values, 2^-149.
ghost use Rattle.std.specs.Prelude.{◌≡◌, ◌*◌, ◌/◌, ◌%◌, ◌^◌, ◌-◌, ◌<◌, ◌≤◌, min, leb, IfNone, IfSome};
ghost use Rattle.std.specs.Float.Ieee as Ieee;
ghost use Rattle.float32.specs.Parts.{field_of, digits_in, scale_of, unit_pattern};

// 2^23: the leading digit, which a pattern leaves out. Its exponent's field counts these.
pub(crate) const LEADING: u32 = 0x80_0000;

// 2^31: the sign.
pub(crate) const SIGN: u32 = 0x8000_0000;

// The bits of a float.
#[derive(Clone, Copy)]
pub(crate) struct Pattern(pub(crate) u32);

impl Pattern {
    // That of 2^p of the smallest values.
    pub(crate) fn of_unit(p: u32) -> Pattern
        requires { p ≤ 253 }
        ensures value { result.0 ≡ unit_pattern p }
        ensures below { result.0 ≤ 0x7380_0000 }
    {
        if p < 23 {
            return Pattern(1 << p);
        }
        Pattern((p - 22) * LEADING)
    }

    pub(crate) fn is_negative(self) -> bool
        ensures { result ≡ leb (Ieee.top Ieee.binary32) self.0 }
    {
        self.0 >= SIGN
    }

    // The exponent's field.
    pub(crate) fn exponent(self) -> u32
        ensures { result ≡ field_of self.0 }
    {
        self.0 % SIGN / LEADING
    }

    // The digits, with the leading one where the field is not 0.
    fn digits(self) -> u32
        ensures { result ≡ digits_in self.0 }
    {
        let digits = self.0 % LEADING;
        if self.exponent() == 0 {
            digits
        } else {
            LEADING + digits
        }
    }

    // The scale: a field of 0 counts as 1.
    fn scale(self) -> u32
        ensures { result ≡ scale_of self.0 }
    {
        self.exponent().saturating_sub(1)
    }
}

// A finite size.
#[derive(Clone, Copy)]
pub(crate) struct Scaled {
    pub(crate) digits: u32,
    pub(crate) scale: u32,
    ghost fits: { digits < 2 ^ 24 },
}

// A finite size above 0.
#[derive(Clone, Copy)]
pub(crate) struct Divisor {
    pub(crate) size: Scaled,
    ghost positive: { 0 < size.digits },
}

impl Scaled {
    // The size of a finite value.
    pub(crate) fn of(pattern: Pattern) -> Scaled
        ensures digits { result.digits ≡ digits_in pattern.0 }
        ensures scale { result.scale ≡ scale_of pattern.0 }
    {
        Scaled {
            digits: pattern.digits(),
            scale: pattern.scale(),
        }
    }

    // As a divisor, where it is not 0.
    pub(crate) fn divisor(self) -> Option<Divisor>
        ensures zero { IfNone result (self.digits ≡ 0) }
        ensures size { IfSome result (λ divisor. divisor.size ≡ self) }
    {
        if self.digits == 0 {
            return None;
        }
        Some(Divisor { size: self })
    }

    // Its whole part: the digits, shifted. Below a scale of 126 it is below 1.
    pub(crate) fn whole(self) -> u32
        requires { self.scale ≤ 157 }
        ensures { result ≡ self.digits * 2 ^ self.scale / 2 ^ 149 }
    {
        if self.scale < 126 {
            return 0;
        }
        if self.scale < 149 {
            return self.digits >> (149 - self.scale);
        }
        self.digits << (self.scale - 149)
    }

    // What is left of it after as many divisors as go into it, at the lower scale of the two.
    #[tactic(auto, using(crate::proofs::Rest::rest_scaled, crate::proofs::Rest::rest_lower))]
    pub(crate) fn rest(self, divisor: Divisor) -> Scaled
        ensures value { result.digits * 2 ^ result.scale ≡ self.digits * 2 ^ self.scale % (divisor.size.digits * 2 ^ divisor.size.scale) }
        ensures scale { result.scale ≡ min self.scale divisor.size.scale }
    {
        if self.scale < divisor.size.scale {
            return Scaled {
                digits: self.rest_above(divisor, divisor.size.scale - self.scale),
                scale: self.scale,
            };
        }
        Scaled {
            digits: self.rest_below(divisor, self.scale - divisor.size.scale),
            scale: divisor.size.scale,
        }
    }

    // digits % (d * 2^k), of a divisor's digits d. From 24 places on the digits are below that.
    #[tactic(auto, using(crate::proofs::Rest::small_rest))]
    fn rest_above(self, divisor: Divisor, k: u32) -> u32
        ensures { result ≡ self.digits % (divisor.size.digits * 2 ^ k) }
    {
        if k >= 24 {
            return self.digits;
        }
        let divisor = u64::from(divisor.size.digits) << k;
        (u64::from(self.digits) % divisor) as u32
    }

    // digits * 2^k % d, by 32 places at a time.
    fn rest_below(self, divisor: Divisor, k: u32) -> u32
        ensures { result ≡ self.digits * 2 ^ k % divisor.size.digits }
    {
        let divisor = u64::from(divisor.size.digits);
        let mut rest = u64::from(self.digits) % divisor;
        for _ in 0..k / 32 {
            rest = (rest << 32) % divisor;
        }
        ((rest << (k % 32)) % divisor) as u32
    }
}
