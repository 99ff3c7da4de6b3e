// Shows the stores and the contention managers at work: one story told to each store, another to each manager.
#![tactic(auto)]

mod manager_story;
mod store_story;

fn main(rt: HostRuntime) -> anyhow::Result<()> {
    store_story::show(&rt)?;
    manager_story::show(&rt)?;
    Ok(())
}
