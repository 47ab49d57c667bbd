//! The cuts that workers know of.
ghost use Rattle.std.specs.Prelude.{◌<◌, ⊤, All};
ghost use Rattle.boxcar.specs.Table.{Shows};

use cut_pool::{Pool, Tokens};
use lock_model::{Instance, Ships};
use node_work::KnownCuts;

/// The shared cuts, and the tokens of those that one worker posted.
#[derive(Drop)]
pub(crate) struct PostedCuts<'w> {
    pub(crate) pool: &'w Pool,
    pub(crate) tokens: &'w Tokens,
    pub(crate) ghost posted: { All (λ token. Shows pool.now token) tokens.now },
}

/// The shared cuts, of which a worker has these tokens.
pub(crate) fn posted_cuts<'w>(pool: &'w Pool, tokens: &'w Tokens) -> PostedCuts<'w>
    requires { All (λ token. Shows pool.now token) tokens.now }
{
    PostedCuts { pool, tokens }
}

// The book decides whether a cut hits a node, so nothing need be told of its number.
impl KnownCuts for PostedCuts<'_> {
    ghost tells = { λ _ _ _ _ _. ⊤ };

    fn find(&self, instance: &Instance, chamber: u8, ships: &Ships) -> Option<u64> {
        self.pool.find(self.tokens, instance, chamber, ships)
    }
}
