//! What goes over the whole map, bucket by bucket: walks, a clear and a retain.

mod asking;
mod clear;
pub(crate) mod cursor;
mod drop_by_value;
mod drop_in_place;
mod in_place;
pub(crate) mod not_retained;
pub(crate) mod numbered;
mod of_class;
mod part;
mod retain;
mod show;
pub(crate) mod visit;
