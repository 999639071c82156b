use ark_vnic::Vnic;

/// What a side of a network card has to do with of its application's other objects.
#[derive(Clone, Copy, Debug, PartialEq, Eq)]
pub struct NetSide {
    /// The key of the rate that paces it, where one does.
    pub rate: u32,
    /// The key of the door that watches it.
    pub door: Option<u32>,
}

/// A network card, with the other objects of its application that its two sides have to do with.
#[derive(Drop)]
pub struct NetworkCard {
    pub vnic: Vnic,
    pub rx: NetSide,
    pub tx: NetSide,
}
