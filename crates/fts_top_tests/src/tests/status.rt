use fts_top::{Device, Status};
use std::alloc::{AllocError, Global};
use std::test::Fail;

const DAMAGED: Status = Status::Damaged {
    device: Device::Index,
    file: 1,
    at: 34,
};

const TOO_LONG: Status = Status::ScriptTooLong { lines: 2, bytes: 3 };

const TOO_MANY: Status = Status::TooManySessions { session: 17 };

const STATUSES: [(Status, u8, &str); 11] = [
    (Status::Done, 0, "done"),
    (Status::NoMemory, 1, "no memory"),
    (Status::Usage, 2, "usage: fts DIR create|run|serve|gen .."),
    (Status::ReadFault, 3, "read fault"),
    (Status::WriteFault, 4, "write fault"),
    (Status::DiskFault, 5, "disk fault"),
    (Status::NotCreated, 6, "not created"),
    (Status::AlreadyCreated, 7, "already created"),
    (DAMAGED, 8, "damaged index file 1 at 34"),
    (TOO_LONG, 9, "script too long"),
    (TOO_MANY, 10, "too many sessions"),
];

/// Whether a status has this number and this text.
fn is_told(alloc: Global, status: &Status, number: u8, text: &str) -> Result<bool, AllocError> {
    let printed = format!(in alloc; "{status}")?;
    Ok(status.number() == number && printed.as_str() == text)
}

#[test]
fn each_status_has_its_number_and_its_text(rt: HostRuntime) -> Result<(), Fail> {
    for (status, number, text) in STATUSES {
        let holds = is_told(rt.alloc(), &status, number, text)?;
        assert!(rt; holds, "{text}");
    }
    Ok(())
}
