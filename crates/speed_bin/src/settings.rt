//! What a header settles beside the timing.

/// Whether refreshes are of all banks (REFab) or of the banks with one address (REFsb).
#[derive(Clone, Copy, Debug, PartialEq, Eq)]
pub enum RefreshMode {
    All,
    Same,
}

/// The settings of a header, in the ranges of `docs/FORMATS.md`.
#[derive(Clone, Copy, Debug, PartialEq, Eq)]
pub struct Settings {
    /// The rows of a bank, 1 to 65,536.
    pub rows: u32,
    /// The alert threshold: activations of a row at which ALERT is raised.
    pub ath: u32,
    /// The least counter of a tracked row that an RFM mitigates.
    pub eth: u32,
    /// The initial management threshold: the rolling count from which an RFM is wanted.
    pub raaimt: u32,
    /// The maximum management threshold: the rolling count at which no ACT is allowed.
    pub raammt: u32,
    pub refresh: RefreshMode,
    /// One ECS for so many refreshes of bank address 0; none where it is 0.
    pub ecs_every: u32,
}
