use address::kind::Address;
use cache::cache::Cache;
use fall_through::layer::FallThrough;
use filter::layer::Filter;
use patricia::patricia::Patricia;
use sorted::list::Sorted;
use std::fmt;
use table::calls::Granted;
use table::interface::Table;

// A stack that can print what the slots of its caches hold.
pub trait Slots {
    fn print_slots(&self, rt: &HostRuntime) -> anyhow::Result<()>;
}

impl<'a, A: Address> Slots for Sorted<'a, A> {
    fn print_slots(&self, _rt: &HostRuntime) -> anyhow::Result<()> {
        Ok(())
    }
}

impl<'a, A: Address> Slots for Patricia<'a, A> {
    fn print_slots(&self, _rt: &HostRuntime) -> anyhow::Result<()> {
        Ok(())
    }
}

impl<T: Table + Slots> Slots for Filter<T> {
    fn print_slots(&self, rt: &HostRuntime) -> anyhow::Result<()> {
        self.inner().print_slots(rt)
    }
}

impl<U: Table + Slots, L: Table<Addr = U::Addr> + Slots> Slots for FallThrough<U, L> {
    fn print_slots(&self, rt: &HostRuntime) -> anyhow::Result<()> {
        self.upper().print_slots(rt)?;
        self.lower().print_slots(rt)
    }
}

impl<T: Table + Slots> Slots for Cache<T>
where
    T::Addr: fmt::Display,
{
    fn print_slots(&self, rt: &HostRuntime) -> anyhow::Result<()> {
        print!(rt; "  slots")?;
        for (i, entry) in (0..4096).filter_map(|i| Some((i, self.entry(i)?))) {
            let address = entry.address;
            let answer = Granted::Found(entry.answer);
            print!(rt; " [{i}] {address} {answer}")?;
        }
        println!(rt; "")?;
        self.inner().print_slots(rt)
    }
}
