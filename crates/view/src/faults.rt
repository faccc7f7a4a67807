// The one line for bytes that are not a report.
use report::layout;
use report_reader::Fault;
use std::io;

// What is wrong with so many bytes: what the fault says, and how many there are where that is the fault.
pub(crate) fn print_fault(rt: &impl Print, why: Fault, bytes: usize) -> io::Result<()> {
    match why {
        Fault::Short => println!(rt; "not a report: {bytes} bytes, and the shortest has 9"),
        Fault::Length(_) => {
            let after = bytes.saturating_sub(layout::UNCOUNTED as usize);
            println!(rt; "not a report: {why}, and there are {after}")
        }
        _ => println!(rt; "not a report: {why}"),
    }
}
