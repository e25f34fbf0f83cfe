//! How the table grows while clients call the map: when, how far, and who moves which bins.

mod move_strides;
pub(crate) mod moving;
pub(crate) mod policy;
pub(crate) mod resizer;
pub(crate) mod size;
