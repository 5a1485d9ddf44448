// Bytes written into an area, one run behind the other.
ghost use Rattle.std.specs.Prelude.{◌<◌, ◌∷◌, []};
ghost use Rattle.codec.specs.Number.{bytes_of};
ghost use Rattle.codec.specs.Writing.{HasRoom, Wrote};

// A lent area, and where the next byte goes.
#[derive(Drop)]
pub struct Writer<'a> {
    pub out: &'a mut [u8],
    pub at: usize,
}

impl Writer<'_> {
    // One byte.
    #[inline]
    #[tactic(auto, unfolding(crate::specs::Number::put))]
    pub fn byte(&mut self, x: u8)
        requires { HasRoom self.old (x ∷ []) }
        ensures { Wrote self.old (x ∷ []) self.new }
    {
        self.out[self.at] = x;
        self.at += 1;
    }

    // Several bytes.
    #[inline]
    #[tactic(auto, using(crate::proofs::WriteLaws::copied_over))]
    pub fn bytes(&mut self, xs: &[u8])
        requires { HasRoom self.old xs.now }
        ensures { Wrote self.old xs.now self.new }
    {
        let end = self.at + xs.len();
        self.out[self.at..end].copy_from_slice(xs);
        self.at = end;
    }

    // The bytes of a number.
    #[inline]
    #[tactic(auto, using(crate::proofs::NumberBytes::sizes))]
    pub fn number(&mut self, v: u32)
        requires { (v < 2097152) × HasRoom self.old (bytes_of v) }
        ensures { Wrote self.old (bytes_of v) self.new }
    {
        if v < 128 {
            self.bytes(&[v as u8]);
        } else if v < 16384 {
            self.bytes(&[(v % 128 + 128) as u8, (v / 128) as u8]);
        } else {
            self.bytes(&[
                (v % 128 + 128) as u8,
                (v / 128 % 128 + 128) as u8,
                (v / 16384) as u8,
            ]);
        }
    }
}
