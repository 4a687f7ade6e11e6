//! How a command ends, by its name in a row.

use m88_base::Status;

/// The names of the statuses.
const NAMES: [(&str, Status); 7] = [
    ("done", Status::Done),
    ("usage", Status::Usage),
    ("source fault", Status::SourceFault),
    ("sink fault", Status::SinkFault),
    ("refused", Status::Refused),
    ("memory", Status::Memory),
    ("too long", Status::TooLong),
];

/// The status of a name.
pub fn status_of(name: &str) -> Option<Status> {
    for (own, status) in NAMES {
        if own == name {
            return Some(status);
        }
    }
    None
}

/// The name of a status.
pub fn name_of(status: Status) -> &'static str {
    for (name, own) in NAMES {
        if own == status {
            return name;
        }
    }
    "no status"
}
