//! What follows an instance part: a dossier's certificate, or else a plan text.
ghost use Rattle.std.specs.Prelude.{◌≡◌};
ghost use Rattle.picture_command.specs.Headings.{heading_in};

use cert_text::{Heading, headed};
use instance_text::after_instance;

/// The heading of a dossier's certificate, where the first line with words behind the instance part
/// is one.
pub(crate) fn heading_in(bytes: &[u8]) -> Option<Heading>
    ensures { result ≡ heading_in bytes.now }
{
    match headed(after_instance(bytes)) {
        Some((heading, _)) => Some(heading),
        None => None,
    }
}
