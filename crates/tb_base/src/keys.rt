ghost use Rattle.std.specs.Prelude.{◌≡◌, ◌<◌, ◌≤◌};
ghost use Rattle.tb_base.specs.Keys.{ckey_of, key_range};

/// The most record keys that a key range may have. Each key range divides it, and key sums are
/// kept modulo it: so cells don't depend on the key range.
pub const MOST_KEYS: u16 = 4096;

/// A key range: how many record keys there are, and how many cell keys. Each is a number below it.
#[derive(Clone, Copy, Debug, PartialEq, Eq)]
pub enum Keys {
    K256,
    K4096,
}

impl Keys {
    /// The key range as a number, 256 or 4096.
    #[inline]
    pub fn size(&self) -> u16
        ensures size { result ≡ key_range self.now }
        ensures some { 0 < result }
        ensures most { result ≤ MOST_KEYS }
    {
        match self {
            Keys::K256 => 256,
            Keys::K4096 => 4096,
        }
    }

    /// The cell key of a sum of record keys: the sum modulo the key range.
    #[inline]
    pub fn cell_key(&self, sum: u16) -> u16
        ensures ckey { result ≡ ckey_of self.now sum }
        ensures below { result < key_range self.now }
    {
        sum % self.size()
    }
}
