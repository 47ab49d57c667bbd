//! Dossiers: an instance and a certificate of it as one text, whole or open.
//!
//! `print_dossier` prints the canonical dossier of a form, which is read back as the same instance and
//! the same certificate. `read_dossier` answers for all bytes: the instance and the certificate that
//! they mean in a form, or their first fault exactly where they mean none, or else want of memory. A
//! whole certificate closes each node of its tree; an open one may leave some open. The readers and the
//! writers of a cost, of cuts and of a plan fit together.
//!
//! Definitions: `specs/Dossier` (the canonical dossier, what a text means, its first fault),
//! `Heading` (the line before the certificate), `Versions` (which version a certificate is written
//! in), `Certificates` (a certificate as a JSON value, and the first part at fault), `Cost`, `Cuts`,
//! `Plans`, `Prices`, `Triples` and `Trees` (its parts, both ways), `Marks` (the numbers of a mark, by the ships
//! of the instance), `Ships` (lists of ships), `Fields` (numbers, lists and keys) and `Steps` (of which
//! the first that finds nothing ends the search).
#![tactic(auto)]

mod bad;
mod certificate;
mod cost;
mod cuts;
mod group;
mod heading;
mod marks;
mod parts;
mod plan;
mod prices;
mod print;
mod read;
mod ships;
mod spots;
mod tree;
mod triples;
mod value;
mod version;
mod why;

pub use bad::{BadDossier, DossierError};
pub use cost::{cost_of, put_cost};
pub use cuts::{cuts_of, put_cuts};
pub use heading::{Form, Heading, Version, headed};
pub use plan::{plan_of, put_plan};
pub use print::print_dossier;
pub use read::read_dossier;
