//! One choice among the 33 widths.

/// Calls a function with the width as its const argument; the width is at most 32.
macro_rules! at_width {
    ($width:expr, $call:ident($($argument:expr),*)) => {
        match $width {
            0 => $call::<0>($($argument),*),
            1 => $call::<1>($($argument),*),
            2 => $call::<2>($($argument),*),
            3 => $call::<3>($($argument),*),
            4 => $call::<4>($($argument),*),
            5 => $call::<5>($($argument),*),
            6 => $call::<6>($($argument),*),
            7 => $call::<7>($($argument),*),
            8 => $call::<8>($($argument),*),
            9 => $call::<9>($($argument),*),
            10 => $call::<10>($($argument),*),
            11 => $call::<11>($($argument),*),
            12 => $call::<12>($($argument),*),
            13 => $call::<13>($($argument),*),
            14 => $call::<14>($($argument),*),
            15 => $call::<15>($($argument),*),
            16 => $call::<16>($($argument),*),
            17 => $call::<17>($($argument),*),
            18 => $call::<18>($($argument),*),
            19 => $call::<19>($($argument),*),
            20 => $call::<20>($($argument),*),
            21 => $call::<21>($($argument),*),
            22 => $call::<22>($($argument),*),
            23 => $call::<23>($($argument),*),
            24 => $call::<24>($($argument),*),
            25 => $call::<25>($($argument),*),
            26 => $call::<26>($($argument),*),
            27 => $call::<27>($($argument),*),
            28 => $call::<28>($($argument),*),
            29 => $call::<29>($($argument),*),
            30 => $call::<30>($($argument),*),
            31 => $call::<31>($($argument),*),
            32 => $call::<32>($($argument),*),
            _ => unreachable!(),
        }
    };
}

pub(crate) use at_width;
