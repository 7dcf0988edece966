// A message that could not be read: why, and the octet at which it is faulty.
use elements::faults::Fault;
use messages::message::Unread;
use shown::element_lines::NamedCause;
use shown::octets::Marked;
use std::io;

// The place is an offset in the message.
fn show_fault(rt: &impl Print, start: usize, octets: &[u8], fault: Fault) -> io::Result<()> {
    let cause = NamedCause(fault.cause);
    let layer = u8::from(fault.layer);
    let place = fault.place;
    let offset = start.saturating_add(place);
    println!(rt; "  faulty: cause {cause}, layer {layer}, place {place} (offset {offset})")?;
    let marked = Marked { octets, place };
    println!(rt; "    {marked}")
}

pub fn show_unread(rt: &impl Print, start: usize, octets: &[u8], why: Unread) -> io::Result<()> {
    match why {
        Unread::Faulty(fault) => show_fault(rt, start, octets, fault),
        Unread::Refused(refusal) => {
            println!(rt; "  refused with number {}: {refusal}", u8::from(refusal))
        }
    }
}
