// The controller's record, and what a call answers.
#[repr(C)]
#[derive(Clone, Copy)]
pub struct Drive {
    pub sense: [u8; 4],
    // in force where known; the flags stand beside their values, since C reads the record
    pub config: [u8; 10],
    pub known: bool,
    pub pending: bool,
}

#[repr(C)]
#[derive(Clone, Copy)]
pub struct Controller {
    pub buffer: [u8; 512],
    pub drives: [Drive; 4],
}

#[repr(C)]
#[derive(Clone, Copy)]
pub struct Answer {
    // 0 to 3, and no enum, since C reads it
    pub number: u8,
    pub status: u8,
    pub message: u8,
    // sectors done
    pub sectors: u16,
    // bytes handed over
    pub bytes: u32,
}

// What a command leaves of its drive's entry, and its answer.
#[derive(Clone, Copy)]
pub struct Ending {
    pub entry: Drive,
    pub answer: Answer,
}

#[derive(Clone, Copy)]
pub struct Outcome {
    pub controller: Controller,
    pub answer: Answer,
}
