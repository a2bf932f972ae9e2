//! Numbers in mixed radix.
ghost use Rattle.std.specs.Prelude.{◌≡◌, ◌<◌, ◌^◌};
ghost use Rattle.gm_board.specs.inner.Digits.{radix_size, digits_number, number_digits, AreBelow};

/// Numbers of `K` digits, each below its own radix, the first digit most significant.
#[derive(Clone, Copy, Debug, PartialEq, Eq)]
pub struct MixedRadix<const K: usize> {
    pub radices: [u64; K],
    ghost fits: { radix_size radices < 2 ^ 64 },
}

impl<const K: usize> MixedRadix<K> {
    /// Returns how many numbers there are: the product of the radices.
    #[tactic(auto, using(crate::proofs::RadixSteps::size_more))]
    pub fn size(&self) -> u64
        ensures { result ≡ radix_size self.now.radices }
    {
        let mut size: u64 = 1;
        for k in (0..K).rev() {
            // The product of the later radices can be too large if an earlier one is 0.
            size = size.wrapping_mul(self.radices[k]);
        }
        size
    }

    /// Returns the number that has these digits.
    #[tactic(auto, using(crate::specs::laws::Digits::number_below, crate::specs::laws::Digits::digits_back, crate::proofs::RadixSteps::number_more, crate::proofs::RadixSteps::prefix_fits, crate::proofs::RadixSteps::number_all))]
    pub fn encode(&self, digits: &[u64; K]) -> u64
        requires { AreBelow self.now.radices digits.now }
        ensures value { result ≡ digits_number self.now.radices digits.now }
        ensures below { result < radix_size self.now.radices }
        ensures back { number_digits self.now.radices result ≡ digits.now }
    {
        let mut number = 0;
        for k in 0..K {
            number = number * self.radices[k] + digits[k];
        }
        number
    }

    /// Returns the digits of this number.
    #[tactic(auto, using(crate::proofs::RadixSteps::decoded_all, crate::proofs::RadixSteps::radix_positive))]
    pub fn decode(&self, number: u64) -> [u64; K]
        requires { number < radix_size self.now.radices }
        ensures value { result ≡ number_digits self.now.radices number }
        ensures digits { AreBelow self.now.radices result }
        ensures back { digits_number self.now.radices result ≡ number }
    {
        let mut digits = [0; K];
        let mut rest = number;
        for k in (0..K).rev() {
            digits[k] = rest % self.radices[k];
            rest /= self.radices[k];
        }
        digits
    }
}
