// What an hour keeps of an asset beside its schedule: its owner, the minute of its latest order, and its reading in kWh.
#[derive(Clone, Copy, Default)]
pub struct Record {
    pub owner: u32,
    pub ordered: Option<u32>,
    pub reading: Option<u32>,
}
