/// In how many ticks a core ran each vCPU in its slots and as the second level's pick, by vCPU number, and
/// in how many it idled.
#[derive(Drop)]
pub struct CoreAccount {
    pub slots: [u64; 256],
    pub shared: [u64; 256],
    pub idle: u64,
}
