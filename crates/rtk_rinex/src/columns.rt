//! Numbers written in columns of text, as the formats of RINEX 3.05 name them (F14.3, I6 ..).
//!
//! digits.rt reads them back.

ghost use Rattle.std.specs.Prelude.{◌≡◌, ℕ, ◌+◌, ◌*◌, ◌/◌, ◌%◌, ◌^◌, ◌<◌, ◌≤◌, ◌∷◌, ◌++◌, length, take, set, replicate, decimal, if◌then◌else◌, false, pos, negsuc, ◌≤ℤ◌};
ghost use Rattle.rtk_obs.specs.CivilText.{last_digits};
ghost use Rattle.rtk_rinex.specs.Columns.{right, decimals, fixed, seconds_of};
ghost use Rattle.rtk_rinex.specs.Record.{code_width};

use arrayvec::ArrayVec;
use rtk_obs::Civil;

/// The columns of a code: the pseudorange, the carrier phase and the signal strength, 16 each.
pub(crate) const CODE_COLUMNS: usize = 48;

/// The columns of a code in a file with Doppler shifts.
pub(crate) const DOPPLER_COLUMNS: usize = 64;

/// The last columns of a code, which stay blank: a signal strength has no digits behind its value.
pub(crate) const BLANK_COLUMNS: usize = 2;

/// Returns the columns of a code in a file with Doppler shifts, or without them.
pub(crate) fn code_columns(doppler: bool) -> usize
    ensures value { result ≡ code_width doppler }
    ensures few { result ≤ 64 }
{
    if doppler {
        DOPPLER_COLUMNS
    } else {
        CODE_COLUMNS
    }
}

/// The bytes of an epoch line, its LF included.
pub(crate) const EPOCH_LINE: usize = 36;

/// The satellites of GPS.
pub(crate) const GPS_SATELLITES: usize = 32;

// The two digits of each number below 100, one number after another.
static PAIRS: [u8; 200] = [
    48, 48, 48, 49, 48, 50, 48, 51, 48, 52, 48, 53, 48, 54, 48, 55, 48, 56, 48, 57, 49, 48, 49, 49,
    49, 50, 49, 51, 49, 52, 49, 53, 49, 54, 49, 55, 49, 56, 49, 57, 50, 48, 50, 49, 50, 50, 50, 51,
    50, 52, 50, 53, 50, 54, 50, 55, 50, 56, 50, 57, 51, 48, 51, 49, 51, 50, 51, 51, 51, 52, 51, 53,
    51, 54, 51, 55, 51, 56, 51, 57, 52, 48, 52, 49, 52, 50, 52, 51, 52, 52, 52, 53, 52, 54, 52, 55,
    52, 56, 52, 57, 53, 48, 53, 49, 53, 50, 53, 51, 53, 52, 53, 53, 53, 54, 53, 55, 53, 56, 53, 57,
    54, 48, 54, 49, 54, 50, 54, 51, 54, 52, 54, 53, 54, 54, 54, 55, 54, 56, 54, 57, 55, 48, 55, 49,
    55, 50, 55, 51, 55, 52, 55, 53, 55, 54, 55, 55, 55, 56, 55, 57, 56, 48, 56, 49, 56, 50, 56, 51,
    56, 52, 56, 53, 56, 54, 56, 55, 56, 56, 56, 57, 57, 48, 57, 49, 57, 50, 57, 51, 57, 52, 57, 53,
    57, 54, 57, 55, 57, 56, 57, 57,
];

// A point and the three digits of each number below 1000, one number after another.
static POINT_AND_THREE: [u8; 4000] = *b"\
    .000.001.002.003.004.005.006.007.008.009.010.011.012.013.014.015.016.017.018.019\
    .020.021.022.023.024.025.026.027.028.029.030.031.032.033.034.035.036.037.038.039\
    .040.041.042.043.044.045.046.047.048.049.050.051.052.053.054.055.056.057.058.059\
    .060.061.062.063.064.065.066.067.068.069.070.071.072.073.074.075.076.077.078.079\
    .080.081.082.083.084.085.086.087.088.089.090.091.092.093.094.095.096.097.098.099\
    .100.101.102.103.104.105.106.107.108.109.110.111.112.113.114.115.116.117.118.119\
    .120.121.122.123.124.125.126.127.128.129.130.131.132.133.134.135.136.137.138.139\
    .140.141.142.143.144.145.146.147.148.149.150.151.152.153.154.155.156.157.158.159\
    .160.161.162.163.164.165.166.167.168.169.170.171.172.173.174.175.176.177.178.179\
    .180.181.182.183.184.185.186.187.188.189.190.191.192.193.194.195.196.197.198.199\
    .200.201.202.203.204.205.206.207.208.209.210.211.212.213.214.215.216.217.218.219\
    .220.221.222.223.224.225.226.227.228.229.230.231.232.233.234.235.236.237.238.239\
    .240.241.242.243.244.245.246.247.248.249.250.251.252.253.254.255.256.257.258.259\
    .260.261.262.263.264.265.266.267.268.269.270.271.272.273.274.275.276.277.278.279\
    .280.281.282.283.284.285.286.287.288.289.290.291.292.293.294.295.296.297.298.299\
    .300.301.302.303.304.305.306.307.308.309.310.311.312.313.314.315.316.317.318.319\
    .320.321.322.323.324.325.326.327.328.329.330.331.332.333.334.335.336.337.338.339\
    .340.341.342.343.344.345.346.347.348.349.350.351.352.353.354.355.356.357.358.359\
    .360.361.362.363.364.365.366.367.368.369.370.371.372.373.374.375.376.377.378.379\
    .380.381.382.383.384.385.386.387.388.389.390.391.392.393.394.395.396.397.398.399\
    .400.401.402.403.404.405.406.407.408.409.410.411.412.413.414.415.416.417.418.419\
    .420.421.422.423.424.425.426.427.428.429.430.431.432.433.434.435.436.437.438.439\
    .440.441.442.443.444.445.446.447.448.449.450.451.452.453.454.455.456.457.458.459\
    .460.461.462.463.464.465.466.467.468.469.470.471.472.473.474.475.476.477.478.479\
    .480.481.482.483.484.485.486.487.488.489.490.491.492.493.494.495.496.497.498.499\
    .500.501.502.503.504.505.506.507.508.509.510.511.512.513.514.515.516.517.518.519\
    .520.521.522.523.524.525.526.527.528.529.530.531.532.533.534.535.536.537.538.539\
    .540.541.542.543.544.545.546.547.548.549.550.551.552.553.554.555.556.557.558.559\
    .560.561.562.563.564.565.566.567.568.569.570.571.572.573.574.575.576.577.578.579\
    .580.581.582.583.584.585.586.587.588.589.590.591.592.593.594.595.596.597.598.599\
    .600.601.602.603.604.605.606.607.608.609.610.611.612.613.614.615.616.617.618.619\
    .620.621.622.623.624.625.626.627.628.629.630.631.632.633.634.635.636.637.638.639\
    .640.641.642.643.644.645.646.647.648.649.650.651.652.653.654.655.656.657.658.659\
    .660.661.662.663.664.665.666.667.668.669.670.671.672.673.674.675.676.677.678.679\
    .680.681.682.683.684.685.686.687.688.689.690.691.692.693.694.695.696.697.698.699\
    .700.701.702.703.704.705.706.707.708.709.710.711.712.713.714.715.716.717.718.719\
    .720.721.722.723.724.725.726.727.728.729.730.731.732.733.734.735.736.737.738.739\
    .740.741.742.743.744.745.746.747.748.749.750.751.752.753.754.755.756.757.758.759\
    .760.761.762.763.764.765.766.767.768.769.770.771.772.773.774.775.776.777.778.779\
    .780.781.782.783.784.785.786.787.788.789.790.791.792.793.794.795.796.797.798.799\
    .800.801.802.803.804.805.806.807.808.809.810.811.812.813.814.815.816.817.818.819\
    .820.821.822.823.824.825.826.827.828.829.830.831.832.833.834.835.836.837.838.839\
    .840.841.842.843.844.845.846.847.848.849.850.851.852.853.854.855.856.857.858.859\
    .860.861.862.863.864.865.866.867.868.869.870.871.872.873.874.875.876.877.878.879\
    .880.881.882.883.884.885.886.887.888.889.890.891.892.893.894.895.896.897.898.899\
    .900.901.902.903.904.905.906.907.908.909.910.911.912.913.914.915.916.917.918.919\
    .920.921.922.923.924.925.926.927.928.929.930.931.932.933.934.935.936.937.938.939\
    .940.941.942.943.944.945.946.947.948.949.950.951.952.953.954.955.956.957.958.959\
    .960.961.962.963.964.965.966.967.968.969.970.971.972.973.974.975.976.977.978.979\
    .980.981.982.983.984.985.986.987.988.989.990.991.992.993.994.995.996.997.998.999";

// Each number below 1000 at the right end of four columns, one number after another.
static THREE_OF_FOUR: [u8; 4000] =
    *b"   0   1   2   3   4   5   6   7   8   9  10  11  12  13  14  15  16  17  18  19  \
    20  21  22  23  24  25  26  27  28  29  30  31  32  33  34  35  36  37  38  39  \
    40  41  42  43  44  45  46  47  48  49  50  51  52  53  54  55  56  57  58  59  \
    60  61  62  63  64  65  66  67  68  69  70  71  72  73  74  75  76  77  78  79  \
    80  81  82  83  84  85  86  87  88  89  90  91  92  93  94  95  96  97  98  99 \
    100 101 102 103 104 105 106 107 108 109 110 111 112 113 114 115 116 117 118 119 \
    120 121 122 123 124 125 126 127 128 129 130 131 132 133 134 135 136 137 138 139 \
    140 141 142 143 144 145 146 147 148 149 150 151 152 153 154 155 156 157 158 159 \
    160 161 162 163 164 165 166 167 168 169 170 171 172 173 174 175 176 177 178 179 \
    180 181 182 183 184 185 186 187 188 189 190 191 192 193 194 195 196 197 198 199 \
    200 201 202 203 204 205 206 207 208 209 210 211 212 213 214 215 216 217 218 219 \
    220 221 222 223 224 225 226 227 228 229 230 231 232 233 234 235 236 237 238 239 \
    240 241 242 243 244 245 246 247 248 249 250 251 252 253 254 255 256 257 258 259 \
    260 261 262 263 264 265 266 267 268 269 270 271 272 273 274 275 276 277 278 279 \
    280 281 282 283 284 285 286 287 288 289 290 291 292 293 294 295 296 297 298 299 \
    300 301 302 303 304 305 306 307 308 309 310 311 312 313 314 315 316 317 318 319 \
    320 321 322 323 324 325 326 327 328 329 330 331 332 333 334 335 336 337 338 339 \
    340 341 342 343 344 345 346 347 348 349 350 351 352 353 354 355 356 357 358 359 \
    360 361 362 363 364 365 366 367 368 369 370 371 372 373 374 375 376 377 378 379 \
    380 381 382 383 384 385 386 387 388 389 390 391 392 393 394 395 396 397 398 399 \
    400 401 402 403 404 405 406 407 408 409 410 411 412 413 414 415 416 417 418 419 \
    420 421 422 423 424 425 426 427 428 429 430 431 432 433 434 435 436 437 438 439 \
    440 441 442 443 444 445 446 447 448 449 450 451 452 453 454 455 456 457 458 459 \
    460 461 462 463 464 465 466 467 468 469 470 471 472 473 474 475 476 477 478 479 \
    480 481 482 483 484 485 486 487 488 489 490 491 492 493 494 495 496 497 498 499 \
    500 501 502 503 504 505 506 507 508 509 510 511 512 513 514 515 516 517 518 519 \
    520 521 522 523 524 525 526 527 528 529 530 531 532 533 534 535 536 537 538 539 \
    540 541 542 543 544 545 546 547 548 549 550 551 552 553 554 555 556 557 558 559 \
    560 561 562 563 564 565 566 567 568 569 570 571 572 573 574 575 576 577 578 579 \
    580 581 582 583 584 585 586 587 588 589 590 591 592 593 594 595 596 597 598 599 \
    600 601 602 603 604 605 606 607 608 609 610 611 612 613 614 615 616 617 618 619 \
    620 621 622 623 624 625 626 627 628 629 630 631 632 633 634 635 636 637 638 639 \
    640 641 642 643 644 645 646 647 648 649 650 651 652 653 654 655 656 657 658 659 \
    660 661 662 663 664 665 666 667 668 669 670 671 672 673 674 675 676 677 678 679 \
    680 681 682 683 684 685 686 687 688 689 690 691 692 693 694 695 696 697 698 699 \
    700 701 702 703 704 705 706 707 708 709 710 711 712 713 714 715 716 717 718 719 \
    720 721 722 723 724 725 726 727 728 729 730 731 732 733 734 735 736 737 738 739 \
    740 741 742 743 744 745 746 747 748 749 750 751 752 753 754 755 756 757 758 759 \
    760 761 762 763 764 765 766 767 768 769 770 771 772 773 774 775 776 777 778 779 \
    780 781 782 783 784 785 786 787 788 789 790 791 792 793 794 795 796 797 798 799 \
    800 801 802 803 804 805 806 807 808 809 810 811 812 813 814 815 816 817 818 819 \
    820 821 822 823 824 825 826 827 828 829 830 831 832 833 834 835 836 837 838 839 \
    840 841 842 843 844 845 846 847 848 849 850 851 852 853 854 855 856 857 858 859 \
    860 861 862 863 864 865 866 867 868 869 870 871 872 873 874 875 876 877 878 879 \
    880 881 882 883 884 885 886 887 888 889 890 891 892 893 894 895 896 897 898 899 \
    900 901 902 903 904 905 906 907 908 909 910 911 912 913 914 915 916 917 918 919 \
    920 921 922 923 924 925 926 927 928 929 930 931 932 933 934 935 936 937 938 939 \
    940 941 942 943 944 945 946 947 948 949 950 951 952 953 954 955 956 957 958 959 \
    960 961 962 963 964 965 966 967 968 969 970 971 972 973 974 975 976 977 978 979 \
    980 981 982 983 984 985 986 987 988 989 990 991 992 993 994 995 996 997 998 999";

/// Writes the two digits of a number below 100 in the columns `at` and `at + 1`.
pub(crate) fn put_pair(field: &mut [u8], at: usize, two: u64)
    requires columns { at + 1 < length field.old }
    requires two { two < 100 }
    ensures { field.new ≡ set (set field.old (at + 1) (48 + two % 10)) at (48 + two / 10) }
{
    let pair = 2 * two as usize;
    field[at + 1] = PAIRS[pair + 1];
    field[at] = PAIRS[pair];
}

/// Writes the last digits of a number over the whole of `field`.
pub(crate) fn put_last_digits(field: &mut [u8], number: u64)
    ensures { field.new ≡ last_digits (length field.old) number }
{
    let mut rest = number;
    let mut at = field.len();
    while at >= 2 {
        at -= 2;
        put_pair(field, at, rest % 100);
        rest /= 100;
    }
    if at > 0 {
        field[0] = b'0' + (rest % 10) as u8;
    }
}

/// Writes a number at the right end of `field`, and returns the column where it begins.
pub(crate) fn put_decimal(field: &mut [u8], number: u64) -> usize
    requires { length (decimal number) ≤ length field.old }
    ensures start { result + length (decimal number) ≡ length field.old }
    ensures written { field.new ≡ take result field.old ++ decimal number }
{
    let mut rest = number;
    let mut at = field.len();
    // Each division waits for the one before it, so one by 100 takes the time of one by 10.
    while rest >= 100 {
        at -= 2;
        put_pair(field, at, rest % 100);
        rest /= 100;
    }
    if rest >= 10 {
        at -= 2;
        put_pair(field, at, rest);
    } else {
        at -= 1;
        field[at] = b'0' + rest as u8;
    }
    at
}

/// Writes a point and the three digits of a number below 1000 over four columns.
pub(crate) fn put_point_and_three(field: &mut [u8], number: usize)
    requires columns { length field.old ≡ 4 }
    requires number { number < 1000 }
    ensures { field.new ≡ 46 ∷ last_digits 3 number }
{
    let entry = 4 * number;
    field[0] = POINT_AND_THREE[entry];
    field[1] = POINT_AND_THREE[entry + 1];
    field[2] = POINT_AND_THREE[entry + 2];
    field[3] = POINT_AND_THREE[entry + 3];
}

// Writes a number below 1000 at the right end of four columns.
fn put_three_of_four(field: &mut [u8], number: usize)
    requires columns { length field.old ≡ 4 }
    requires number { number < 1000 }
    ensures { field.new ≡ right 4 (decimal number) }
{
    let entry = 4 * number;
    field[0] = THREE_OF_FOUR[entry];
    field[1] = THREE_OF_FOUR[entry + 1];
    field[2] = THREE_OF_FOUR[entry + 2];
    field[3] = THREE_OF_FOUR[entry + 3];
}

// Writes F14.3 of a magnitude of at least a million and below a thousand million. It is written
// three digits at a time from the right, each with a column before it that the next ones overwrite.
fn put_magnitude_14_3(field: &mut [u8], magnitude: u64)
    requires blank { field.old ≡ replicate 14 32 }
    requires long { 10 ^ 9 ≤ magnitude }
    requires fits { magnitude < 10 ^ 12 }
    ensures { field.new ≡ right 14 (decimals 3 false magnitude) }
{
    let high = (magnitude / 1_000_000) as u32;
    let low = (magnitude % 1_000_000) as u32;
    put_point_and_three(&mut field[10..], (low % 1000) as usize);
    put_point_and_three(&mut field[6..10], (low / 1000) as usize);
    put_point_and_three(&mut field[3..7], (high % 1000) as usize);
    put_three_of_four(&mut field[..4], (high / 1000) as usize);
}

/// Writes F14.3 of a value below 1000, as signal strengths are, over 14 blanks.
pub(crate) fn put_short_14_3(field: &mut [u8], magnitude: u32)
    requires blank { field.old ≡ replicate 14 32 }
    requires short { magnitude < 1_000_000 }
    ensures { field.new ≡ right 14 (decimals 3 false magnitude) }
{
    put_point_and_three(&mut field[10..], (magnitude % 1000) as usize);
    put_three_of_four(&mut field[6..10], (magnitude / 1000) as usize);
}

// Writes F14.3 of a sign and a magnitude in thousandths.
fn put_signed_14_3(field: &mut [u8], negative: bool, magnitude: u64)
    requires blank { field.old ≡ replicate 14 32 }
    requires fits { magnitude < (if negative then 10 ^ 12 else 10 ^ 13) }
    ensures { field.new ≡ right 14 (decimals 3 negative magnitude) }
{
    put_last_digits(&mut field[11..], magnitude);
    field[10] = b'.';
    let start = put_decimal(&mut field[..10], magnitude / 1000);
    if negative {
        field[start - 1] = b'-';
    }
}

/// Writes F14.3 of a number of thousandths over 14 blanks.
pub(crate) fn put_fixed_14_3(field: &mut [u8], value: i64)
    requires blank { field.old ≡ replicate 14 32 }
    requires low { negsuc 999_999_999_998 ≤ℤ value }
    requires high { value ≤ℤ pos 9_999_999_999_999 }
    ensures { field.new ≡ fixed 3 14 value }
{
    put_signed_14_3(field, value < 0, value.unsigned_abs());
}

/// Writes F14.3 of a value from a million to a thousand million, as ranges and phases of satellites
/// are, over 14 blanks.
pub(crate) fn put_long_14_3(field: &mut [u8], value: i64)
    requires blank { field.old ≡ replicate 14 32 }
    requires low { pos 1_000_000_000 ≤ℤ value }
    requires high { value ≤ℤ pos 999_999_999_999 }
    ensures { field.new ≡ fixed 3 14 value }
{
    put_magnitude_14_3(field, value.unsigned_abs());
}

// Returns a sign and a magnitude in ten-thousandths as F14.4.
fn signed_14_4(negative: bool, magnitude: u64) -> [u8; 14]
    requires { magnitude < 10 ^ 12 }
    ensures { result ≡ right 14 (decimals 4 negative magnitude) }
{
    let mut field = [b' '; 14];
    put_last_digits(&mut field[10..], magnitude);
    field[9] = b'.';
    let start = put_decimal(&mut field[..9], magnitude / 10_000);
    if negative {
        field[start - 1] = b'-';
    }
    field
}

/// Returns a number of ten-thousandths as F14.4.
pub(crate) fn fixed_14_4(value: i64) -> [u8; 14]
    requires low { negsuc 999_999_999_998 ≤ℤ value }
    requires high { value ≤ℤ pos 999_999_999_999 }
    ensures { result ≡ fixed 4 14 value }
{
    signed_14_4(value < 0, value.unsigned_abs())
}

/// Returns a number of ten-millionths as F13.7.
pub(crate) fn unsigned_13_7(magnitude: u64) -> [u8; 13]
    requires { magnitude < 10 ^ 12 }
    ensures { result ≡ right 13 (decimals 7 false magnitude) }
{
    let mut field = [b' '; 13];
    put_last_digits(&mut field[6..], magnitude);
    field[5] = b'.';
    put_decimal(&mut field[..5], magnitude / 10_000_000);
    field
}

/// Returns a number as I6.
pub(crate) fn integer_6(number: u64) -> [u8; 6]
    requires { number < 10 ^ 6 }
    ensures { result ≡ right 6 (decimal number) }
{
    let mut field = [b' '; 6];
    put_decimal(&mut field, number);
    field
}

/// Returns a number as I3.
pub(crate) fn integer_3(number: u64) -> [u8; 3]
    requires { number < 10 ^ 3 }
    ensures { result ≡ right 3 (decimal number) }
{
    let mut field = [b' '; 3];
    put_decimal(&mut field, number);
    field
}

/// Returns the seconds of a date and time in units of 10^-7 s.
pub(crate) fn seconds(time: Civil) -> u64
    requires second { time.second < 60 }
    requires millisecond { time.millisecond < 1000 }
    ensures value { result ≡ seconds_of time }
    ensures bound { result < 600_000_000 }
{
    u64::from(time.second) * 10_000_000 + u64::from(time.millisecond) * 10_000
}

/// Appends a text to the columns of a line.
pub(crate) fn append<const N: usize>(columns: &mut ArrayVec<u8, N>, text: &[u8])
    requires { length columns.old.items + length text.now ≤ N }
    ensures items { columns.new.items ≡ columns.old.items ++ text.now }
    ensures len { length columns.new.items ≡ length columns.old.items + length text.now }
{
    if columns.try_extend_from_slice(text).is_err() {
        unreachable!();
    }
}
