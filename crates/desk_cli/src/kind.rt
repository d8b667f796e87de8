pub mod desk_policy;
pub mod keys;
pub mod states;
