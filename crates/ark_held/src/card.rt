use ark_log::Chain;
use ark_vsic::Vsic;

/// A storage card, with the other objects of its application that it has to do with.
#[derive(Drop)]
pub struct StorageCard {
    pub vsic: Vsic,
    /// The key of the rate that paces it, where one does.
    pub rate: u32,
    /// The key of the door that watches it.
    pub door: Option<u32>,
    /// The log that is open on it.
    pub log: Option<Chain>,
}
