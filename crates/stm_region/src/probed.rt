//! A probe whose lock may be taken.

ghost use Rattle.std.specs.Prelude.{◌≡◌};
ghost use Rattle.stm_region.specs.Shown.{KeepsProbe};

use crate::client::Client;
use stm_core::Law;

/// A lock that a client's last step has probed, with the word that the probe found. The value
/// keeps the client, so that no other step of the client comes between the probe and the exchange.
#[derive(Drop)]
pub struct Probed<'c, L: Law> {
    pub(crate) client: &'c mut Client<L>,
    pub(crate) lock: u32,
    pub(crate) word: u64,
    ghost last: { KeepsProbe word client.now.value.attempt.last },
}

impl<'c, L: Law> Probed<'c, L> {
    /// Returns the word that the probe found.
    #[inline]
    pub fn word(&self) -> u64
        ensures { result ≡ self.now.word }
    {
        let Self { word, .. } = self;
        *word
    }
}
