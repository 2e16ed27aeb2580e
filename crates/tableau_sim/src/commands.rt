// The commands, and what they reply.
pub(crate) mod check;
pub(crate) mod gen_host;
pub(crate) mod plan;
pub(crate) mod plan_stay;
pub(crate) mod plan_whole;
pub(crate) mod prepared;
pub(crate) mod replay;
pub(crate) mod run;
pub(crate) mod run_beside;
pub(crate) mod selftest;
