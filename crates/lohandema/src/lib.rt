#![tactic(auto)]

// The exported functions of the C face, for the archive: those of a module face_NAME call the functions of their names in the crate exports_NAME.
mod face_balance;
mod face_build;
mod face_files;
mod face_keys;
mod face_lists;
mod face_more;
mod face_nodes;
mod face_points;
mod face_reading;
mod face_salvage;
mod face_sizes;
mod face_sums;
mod face_trees;
