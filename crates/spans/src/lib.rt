// Fails statement over a span (document 02, F-13): its type. What it means is in specs/, what is shown of it
// in proofs/. No code stands here.

// An account's record in an issue over a span of a tape: lots due to deliver at closes, lots delivered by
// cutoffs, lots failed, lots resolved. Failed over due is the third over the first.
#![tactic(auto)]

#[derive(Clone, Copy, Drop)]
pub struct Statement {
    pub due: u64,
    pub delivered: u64,
    pub failed: u64,
    pub resolved: u64,
}
