#![tactic(auto)]

mod report;

fn main(rt: HostRuntime) -> anyhow::Result<()> {
    report::run(&rt)
}
