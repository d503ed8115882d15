//! The file of a plane map: bytes opened, where they are lawful, and an image written.
#![tactic(auto)]

mod ahead;
mod counts;
mod draft;
mod form;
mod header;
mod image;
mod layout;
mod marking;
mod milestones;
mod name_sections;
mod open_file;
mod opening;
mod parts;
mod places;
mod section;
mod served;
mod writing;

pub use ahead::IdsAhead;
pub use counts::Counts;
pub use draft::Draft;
pub use file_laws::FileFault;
pub use open_file::OpenFile;
pub use opening::{open, open_lawful};
pub use parts::ImageParts;
pub use served::Served;
pub use writing::{write_draft, write_image, write_old_image};
