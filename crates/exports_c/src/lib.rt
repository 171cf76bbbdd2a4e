// The engine's library for programs in other languages: each export is the function of `exports` of its name, with the same clauses. include/gusnalip.h declares them.

#![tactic(auto)]

ghost use Rattle.std.specs.Prelude.{◌≡◌};
ghost use Rattle.std.proofs.lemmas.List.Edits.{sets};
ghost use Rattle.product.specs.declared.Device.{Device};
ghost use Rattle.exports.specs.Kits.{form_to, new_kit_to, kit_sweep_to, clean_to};
ghost use Rattle.exports.specs.Words.{flag_from};
ghost use Rattle.exports.specs.Answers.{leaves, set_up_to, multiply_to, read_to, tally_to, divide_to, divide_reading_to, new_sweep_to, sweep_to};

// Set-up: 0 and the factor's 10 words, or the refusal; 255 where the list is too short. The sign is minus where it is not 0.
#[unsafe(no_mangle)]
pub extern "C" fn gusnalip_set_up(
    minus: u32,
    precision: u32,
    scale: i32,
    lower: u64,
    upper: u64,
    out: &mut [u64],
) -> u32
    ensures value { result ≡ (set_up_to (record { minus = flag_from minus; precision = precision; scale = scale; lower = lower; upper = upper }) out.old).number }
    ensures out_after { out.new ≡ leaves (set_up_to (record { minus = flag_from minus; precision = precision; scale = scale; lower = lower; upper = upper }) out.old) out.old }
{
    exports::gusnalip_set_up(minus, precision, scale, lower, upper, out)
}

// Multiplies a significand: 1 right, 2 open, 3 wrong, with significand, binade, direction (1 below, 2 equal, 3 above) and sign (0 plus, 1 minus), or the refusal; 255 where a list is too short, 31 where the factor's words are damaged.
#[unsafe(no_mangle)]
pub extern "C" fn gusnalip_multiply(factor: &[u64], x: u64, out: &mut [u64]) -> u32
    ensures value { result ≡ (multiply_to Device.TwoStep factor.now x out.old).number }
    ensures out_after { out.new ≡ leaves (multiply_to Device.TwoStep factor.now x out.old) out.old }
{
    exports::gusnalip_multiply(factor, x, out)
}

// The same on the one-step device.
#[unsafe(no_mangle)]
pub extern "C" fn gusnalip_multiply_once(factor: &[u64], x: u64, out: &mut [u64]) -> u32
    ensures value { result ≡ (multiply_to Device.OneStep factor.now x out.old).number }
    ensures out_after { out.new ≡ leaves (multiply_to Device.OneStep factor.now x out.old) out.old }
{
    exports::gusnalip_multiply_once(factor, x, out)
}

// Multiplies a reading given by its bits: 1 right, 2 open, 3 wrong, with the product's bits and direction, or the refusal; 255 where a list is too short, 31 where the factor's words are damaged.
#[unsafe(no_mangle)]
pub extern "C" fn gusnalip_read(factor: &[u64], reading: u32, out: &mut [u32]) -> u32
    ensures value { result ≡ (read_to Device.TwoStep factor.now reading out.old).number }
    ensures out_after { out.new ≡ leaves (read_to Device.TwoStep factor.now reading out.old) out.old }
{
    exports::gusnalip_read(factor, reading, out)
}

// The same on the one-step device.
#[unsafe(no_mangle)]
pub extern "C" fn gusnalip_read_once(factor: &[u64], reading: u32, out: &mut [u32]) -> u32
    ensures value { result ≡ (read_to Device.OneStep factor.now reading out.old).number }
    ensures out_after { out.new ≡ leaves (read_to Device.OneStep factor.now reading out.old) out.old }
{
    exports::gusnalip_read_once(factor, reading, out)
}

// Tallies a range on the one-step device: 0 with how many significands are right, wrong and open, or the refusal; 255 where a list is too short, 31 where the factor's words are damaged.
#[unsafe(no_mangle)]
pub extern "C" fn gusnalip_tally(factor: &[u64], first: u64, last: u64, out: &mut [u64]) -> u32
    ensures value { result ≡ (tally_to factor.now first last out.old).number }
    ensures out_after { out.new ≡ leaves (tally_to factor.now first last out.old) out.old }
{
    exports::gusnalip_tally(factor, first, last, out)
}

// Divides a significand: 0 with the quotient's significand, its binade, a word in two's complement, its direction and its sign, or the refusal; 255 where a list is too short, 31 where the factor's words are damaged.
#[unsafe(no_mangle)]
pub extern "C" fn gusnalip_divide(factor: &[u64], x: u64, out: &mut [u64]) -> u32
    ensures value { result ≡ (divide_to factor.now x out.old).number }
    ensures out_after { out.new ≡ leaves (divide_to factor.now x out.old) out.old }
{
    exports::gusnalip_divide(factor, x, out)
}

// Divides a reading given by its bits: 0 with the quotient's bits and direction, or the refusal; 255 where a list is too short, 31 where the factor's words are damaged.
#[unsafe(no_mangle)]
pub extern "C" fn gusnalip_divide_reading(factor: &[u64], reading: u32, out: &mut [u32]) -> u32
    ensures value { result ≡ (divide_reading_to factor.now reading out.old).number }
    ensures out_after { out.new ≡ leaves (divide_reading_to factor.now reading out.old) out.old }
{
    exports::gusnalip_divide_reading(factor, reading, out)
}

// A new sweep: 0 and the state's 14 words, or the refusal; 255 where a list is too short, 31 where the factor's words are damaged.
#[unsafe(no_mangle)]
pub extern "C" fn gusnalip_new_sweep(factor: &[u64], first: u64, last: u64, out: &mut [u64]) -> u32
    ensures value { result ≡ (new_sweep_to factor.now first last out.old).number }
    ensures out_after { out.new ≡ leaves (new_sweep_to factor.now first last out.old) out.old }
{
    exports::gusnalip_new_sweep(factor, first, last, out)
}

// A sweep call: 0 with the state's words as handed back, words in the list, and trials, rounds and the next first free place; or the refusal, with nothing written; 255 where the state or the counts have too few words, 31 where the state's are damaged.
#[unsafe(no_mangle)]
pub extern "C" fn gusnalip_sweep(
    state: &mut [u64],
    cap: u64,
    list: &mut [u32],
    free: usize,
    counts: &mut [u64],
) -> u32
    ensures value { result ≡ (sweep_to state.old cap list.old free counts.old).number }
    ensures state_after { state.new ≡ sets state.old 0 (sweep_to state.old cap list.old free counts.old).state }
    ensures list_after { list.new ≡ (sweep_to state.old cap list.old free counts.old).list }
    ensures counts_after { counts.new ≡ sets counts.old 0 (sweep_to state.old cap list.old free counts.old).counts }
{
    exports::gusnalip_sweep(state, cap, list, free, counts)
}

// Forms a kit: 0, or the refusal 42, 31 or 43; 255 where the list is too short.
#[unsafe(no_mangle)]
pub extern "C" fn gusnalip_form_kit(kit: &[u64]) -> u32
    ensures { result ≡ form_to kit.now }
{
    exports::gusnalip_form_kit(kit)
}

// A new kit sweep: 0 and the state's 964 words, or the refusal 42, 31 or 43; 255 where a list is too short.
#[unsafe(no_mangle)]
pub extern "C" fn gusnalip_new_kit_sweep(kit: &[u64], out: &mut [u64]) -> u32
    ensures value { result ≡ (new_kit_to kit.now out.old).number }
    ensures out_after { out.new ≡ leaves (new_kit_to kit.now out.old) out.old }
{
    exports::gusnalip_new_kit_sweep(kit, out)
}

// A kit call: 0 with the three words behind the kit's, entries in the list, and trials, rounds and the next first free place; or the refusal, with nothing written; 255 where the state or the counts have too few words.
#[unsafe(no_mangle)]
pub extern "C" fn gusnalip_kit_sweep(
    state: &mut [u64],
    cap: u64,
    list: &mut [u32],
    free: usize,
    counts: &mut [u64],
) -> u32
    ensures value { result ≡ (kit_sweep_to state.old cap list.old free counts.old).number }
    ensures state_after { state.new ≡ sets state.old 961 (kit_sweep_to state.old cap list.old free counts.old).state }
    ensures list_after { list.new ≡ (kit_sweep_to state.old cap list.old free counts.old).list }
    ensures counts_after { counts.new ≡ sets counts.old 0 (kit_sweep_to state.old cap list.old free counts.old).counts }
{
    exports::gusnalip_kit_sweep(state, cap, list, free, counts)
}

// Whether a kit is clean, by its state and how many entries its calls wrote since the new one: 1 clean, 2 not clean, 3 not finished, or the refusal 42, 31, 43 or 32; 255 where the list is too short.
#[unsafe(no_mangle)]
pub extern "C" fn gusnalip_kit_clean(state: &[u64], entries: u64) -> u32
    ensures { result ≡ clean_to state.now entries }
{
    exports::gusnalip_kit_clean(state, entries)
}
