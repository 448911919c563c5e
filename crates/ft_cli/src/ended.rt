use ft_report::Report;

/// How the call ended: the status that the program exits with, and its report.
#[derive(Drop)]
pub struct Ended {
    pub status: u8,
    pub report: Report,
}
