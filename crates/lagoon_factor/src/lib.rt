// The share of a lagoon's volatile solids that a month degrades, in millionths, by the month's temperature.
#![tactic(auto)]

ghost use Rattle.std.specs.Prelude.{◌≡◌, ◌≤◌, ◌<◌};
ghost use Rattle.lagoon_factor.specs.Rule.{cold_end, hot_end};
ghost use Rattle.lagoon_factor.specs.Factor.{ruled_of, factor_of};

// The first temperature of the table, in tenths of a degree, and the factor below it.
const COLD_END: i16 = 50;

const COLD_FACTOR: u64 = 104_000;

// The first temperature past the table.
const HOT_END: i16 = 302;

// Factors count millionths. From HOT_END on a month degrades all of them.
pub const MILLION: u64 = 1_000_000;

// The factor at a temperature in tenths of a degree.
#[tactic(auto, unfolding(crate::specs::Factor::factor_of))]
pub fn factor(tenths: i16) -> u64
    ensures { result ≡ factor_of tenths }
{
    if tenths < COLD_END {
        return COLD_FACTOR;
    }
    if tenths < HOT_END {
        return entry(tenths as usize);
    }
    MILLION
}

const FIRST_ENTRY: usize = COLD_END as usize;

// The only function that names the table: a constant array is built in the frame of each function that names it.
#[tactic(auto, using(crate::proofs::Entries::entry_right), unfolding(crate::proofs::Table::entry_of, crate::proofs::Table::factors))]
fn entry(tenths: usize) -> u64
    requires { (cold_end ≤ tenths) × (tenths < hot_end) }
    ensures { result ≡ ruled_of tenths }
{
    u64::from(FACTORS[tenths - FIRST_ENTRY])
}

// The factors from 5.0 to 30.1 degrees, by tenths.
const FACTORS: [u32; 252] = [
    102289, 103305, 104329, 105364, 106407, 107461, 108524, 109596, 110679, 111771, 112874, 113986,
    115109, 116242, 117385, 118538, 119703, 120877, 122063, 123259, 124466, 125684, 126913, 128153,
    129404, 130667, 131941, 133226, 134524, 135832, 137153, 138486, 139830, 141187, 142555, 143936,
    145330, 146736, 148154, 149585, 151029, 152486, 153956, 155439, 156935, 158445, 159968, 161505,
    163055, 164619, 166197, 167788, 169394, 171015, 172649, 174298, 175962, 177640, 179333, 181041,
    182764, 184502, 186255, 188024, 189809, 191609, 193424, 195256, 197104, 198968, 200848, 202745,
    204658, 206588, 208535, 210499, 212480, 214478, 216493, 218526, 220577, 222645, 224732, 226836,
    228959, 231100, 233259, 235437, 237634, 239850, 242085, 244339, 246613, 248906, 251219, 253552,
    255904, 258277, 260671, 263084, 265519, 267974, 270450, 272948, 275466, 278006, 280568, 283152,
    285757, 288385, 291035, 293707, 296403, 299121, 301862, 304626, 307413, 310225, 313060, 315918,
    318801, 321708, 324640, 327597, 330578, 333584, 336616, 339673, 342755, 345864, 348998, 352159,
    355346, 358559, 361800, 365068, 368362, 371685, 375035, 378412, 381818, 385252, 388715, 392206,
    395727, 399276, 402855, 406464, 410102, 413770, 417469, 421198, 424958, 428748, 432570, 436424,
    440309, 444226, 448175, 452157, 456171, 460218, 464298, 468411, 472559, 476740, 480955, 485204,
    489488, 493807, 498161, 502551, 506976, 511437, 515934, 520468, 525039, 529646, 534291, 538973,
    543693, 548452, 553248, 558084, 562958, 567871, 572825, 577817, 582850, 587924, 593038, 598193,
    603389, 608627, 613907, 619229, 624594, 630001, 635452, 640946, 646484, 652065, 657692, 663363,
    669079, 674840, 680647, 686500, 692400, 698346, 704339, 710380, 716468, 722605, 728789, 735023,
    741306, 747638, 754020, 760452, 766934, 773468, 780053, 786689, 793377, 800118, 806911, 813758,
    820658, 827612, 834620, 841683, 848800, 855974, 863203, 870488, 877829, 885228, 892684, 900198,
    907770, 915401, 923091, 930840, 938649, 946519, 954449, 962440, 970493, 978608, 986785, 995025,
];
