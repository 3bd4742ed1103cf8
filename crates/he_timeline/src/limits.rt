// The ranges of a race's input. All other code uses these names; proofs use nothing of their values but the
// inequalities at the end.

/// The maximum Resolution Delay, in ticks.
pub const MAX_RESOLUTION: u64 = 1_000;

/// The Resolution Delay of RFC 8305 section 8, in ticks.
pub const DEFAULT_RESOLUTION: u64 = 50;

/// The minimum Connection Attempt Delay of RFC 8305 section 8, in ticks.
pub const MIN_ATTEMPT: u64 = 10;

/// The maximum Connection Attempt Delay of RFC 8305 section 8, in ticks.
pub const MAX_ATTEMPT: u64 = 2_000;

/// The Connection Attempt Delay of RFC 8305 section 8, in ticks.
pub const DEFAULT_ATTEMPT: u64 = 250;

/// The minimum floor after failures, in ticks; its maximum is the Connection Attempt Delay.
pub const MIN_FLOOR: u64 = 10;

/// The minimum First Address Family Count.
pub const MIN_COUNT: u64 = 1;

/// The maximum First Address Family Count.
pub const MAX_COUNT: u64 = 8;

/// The First Address Family Count of RFC 8305 section 8.
pub const DEFAULT_COUNT: u64 = 1;

/// The minimum limit of a race, in ticks.
pub const MIN_LIMIT: u64 = 1;

/// The maximum limit of a race, in ticks.
pub const MAX_LIMIT: u64 = 3_600_000;

/// The default limit of a race, in ticks.
pub const DEFAULT_LIMIT: u64 = 30_000;

/// The maximum tick of an answer.
pub const MAX_TICK: u64 = 3_600_000;

/// The minimum duration of an attempt, in ticks: a connect takes time.
pub const MIN_DURATION: u64 = 1;

/// The maximum duration of an attempt, in ticks.
pub const MAX_DURATION: u64 = 3_600_000;

/// The maximum end of a pause: the first tick after it.
pub const MAX_PAUSE_END: u64 = 3_600_001;

/// No attempt starts and none finishes after this tick.
pub const MAX_FINISH: u64 = 7_200_000;

/// The maximum number of addresses of an answer.
pub const MAX_ADDRESSES: usize = 256;

/// The maximum number of attempts of a race: one for each address of both answers.
pub const MAX_ATTEMPTS: usize = 512;

/// The maximum number of pauses of a race.
pub const MAX_PAUSES: usize = 520;

const _: () = prove!(MIN_ATTEMPT > 0 && MIN_ATTEMPT <= MAX_ATTEMPT);

const _: () = prove!(MIN_FLOOR > 0);

const _: () = prove!(MIN_COUNT > 0 && MIN_COUNT <= MAX_COUNT);

const _: () = prove!(MIN_LIMIT > 0 && MIN_LIMIT <= MAX_LIMIT);

const _: () = prove!(MIN_DURATION > 0);

const _: () = prove!(MAX_LIMIT + MAX_DURATION <= MAX_FINISH);

const _: () = prove!(MAX_PAUSE_END <= MAX_FINISH);

const _: () = prove!(MAX_ADDRESSES + MAX_ADDRESSES <= MAX_ATTEMPTS);
