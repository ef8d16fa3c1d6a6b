// The tree image: its records, laid one behind another into a lent buffer and taken out of one, and what a reading that lays them comes to.
#![tactic(auto)]

pub mod building;
pub mod kind;
pub mod reading;
pub mod record;
pub mod taking;
pub mod writing;
