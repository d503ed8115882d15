//! Damaged copies of the island's file, of form 1 and of form 2 in turn, against what `bench/damaged.py` says of the
//! same copies: what is wrong with each, and what the lawful ones answer.

ghost use Rattle.std.specs.Prelude.{◌≡◌, ◌<◌};

use crate::tests::served;
use bit_words::Steps;
use image_words::{bytes_of, island, old_island, triangle};
use pemb_file::{FileFault, open};
use ports::{MemorySink, MemorySource};
use sha2::{Digest, Sha256};
use std::alloc::Global;
use std::marker::Brand;
use std::sync::ledger::{Blank, Ledger};
use std::test::Fail;

/// Of each copy with the digest that it has: `.` where it is lawful, else a letter from `a` on for G1 and on.
const AS_IT_IS: &str = "\
dddededdededdeaddeeeaededddeeeeeedde.ee.deeeedeeedddeeedddeaeeede.eeebdeeeeeddbeeedeeeedeee.eeedeede\
deeeddeeddedddeae.eaeeeeeeddededddeededeeedee.eddedee.deaeeedeedeedddeeeddddeeceedebded.eedddedeeeed\
eeaddededeeeeeaededed.edaededeebeeeeeedeeeeeaeeddddeebeaeddede.dded.ee...eeeddedeedecdeeddedddedadee\
eede.eeeeddeedeee.eeeeeddbdedeeeeeee..eddededdeededee.ee.e.dddeedeedad.edeedcededdeedededdeeddedeeee\
ddeddededeedeed.deeeeeeeedddddeeedaeedededeeeedddeedeeedbddeeeeeeeeeeadeed.ee..eeedeeeeaadddeeadaede\
edee.deeaeddeededc..ededddeeededddebe.ee.ddede.eeeeeedeeddddeededeeeddddedddeededdd..edcedebddeeddde\
deeddeeeddededeeedae.edadeededaedeeeddddddeededeeeededdeedddebde..ded.dddedddeeeededdeddeeddeeeebddd\
eeeddeddddedde.d.ddadedeeed.ddddeabeddeeeeeeeeeeebdeeeedadeeeeeedeeedbeddedeedcdedebede.eddeedaeed.d\
dee.ededeeeededeeddeedeeeedededddeededad.adeeeeaeedee.eee.aeddbddeeeeededeaeddeee.deedebeedaeeedeee.\
deddededdeeed.ddeaddddddddeddedeedddeeeee.deeedeeeedceeeeeeaadedeeeeedeeaabdeee..ee.deeedddeedededed\
d.eeddddeedddde.ecdeedeadade.eeeee.eddeeeedddeedeedeed.eddedeeededddedddee.ededaedeebd.edeeeeeeede.d\
eeedee.eeddeedade.edeeadeedeeedde.deeeeeeded.edeedea.dddeedeee.dddedeeebaeee.eeadeedeeeedecde.eeeded\
edeeedee.dceee.e.eeddeedb.ddddeeeeedaeeededddbdeeeddeddeeeeddeeeeeeddddeeedeedaeddddeee.eceedeedeeee\
aedeeeddeeede.dddeeceeeedeedeeeeedddeeede.edeeeeddddddeeedee.ede.dddebeedddee.deeeeedddeedeeeee.dddd\
deeeddeededdeedddeeeeddddddeee.e.aee.ebddeededaeddddd.edddd.deddedbddedeee.e.ddcdddddedaddededeeedee\
eaeed.deeeed.dededddeddeeaeeedeedaeeedd.eeedeeeebeeedeadbdeededdd.edeeedceeddeedaaedeeeeeedeeeede.ed\
eeedeedecddededdeddeedeeeeecdeeeeecceeeedeeeddededeeaeeedeedeeeeeed.eddeddedeeddd.deeededed.bed.dede\
deeeeeeeeeeedaeadedddeeadeadbebede.ead.daedeedcdedeeddeedeeeeeeeebedeeddeedadbdddeeeddeedeeeedeedaee\
eddeeeeeeeeededdeeaaedd.ddaddddeededdddeedeeedddeeeddededdeeebaead.deecddededdeedaeeeede.eddeddaeedd\
.eedeedeeedddd.ededdaedeeedddeddeeee.ede.ee..eeeda.ededeeededee.adeded.ddeed.deededeeddeddeeddddeebe\
";

/// The same with the right digest.
const SEALED: &str = "\
ddd.dhddid.ddiadd.hgald.dddgimh.lddg.im.dgmk.djigdddilidddmah.hdi.mimbdlimi.ddbgi.dm.l.dmgg.hgjd.idi\
dii.ddhiddldddiaj..aiigm..ddldhdddmidgdiildmm.iddidmh.dgaikidlgdmidddii.ddddkjcihdgbdid.ghdddldmggkd\
.kaddkdmdkfiiiahdkdid.ldald.di.biigi.idiikkga.iddddmhbgamddidi.ddhd..m...iikddldmidicd.hddidddgdadmi\
gidm.imhidd..d.ll.i..fgddbdhd...klmm..mddmdkddhmdhdii.im.i.ddd.kdhidad..dmkdcldgddm.dkdhddiiddmdkfli\
dd.ddldid.fd.md.dhgiim.fgdddddhildaihdmdidjlgmdddhidgjidbdd..iigig.imadmkd.mi..mildimiiaadddkmadaidi\
idmg.diialddkkdjdc..hdldddilidmdddibh.im.ddgdg.mii.kidiiddddmmdgdhm.ddddhddd.gdiddd..idcldibddlmdddh\
dimdd.l.ddmdjdkgkdam.gdadghdmdaldigiddddddhididki.ididdijdddgbdm..dhd.dddlddd.ikididdlddiidd..imbddd\
ikiddhddddiddg.d.ddadidmlmd.ddddmabhddmlhiliilkigbd.ilidadiii.jjd.m.dbhddidihdcdldlbgdk.hdd.gdaimd.d\
d.i.idhdili.did.iddlhdhkhidgdjdddiididad.adigmha..dim.igi.aiddbdd.hii.dgdhamddmgi.dihdhbigda.igdmfl.\
diddmdiddgmid.ddiaddddddddmddhdiidddmiiil.dliidimkgdciklig.aadjdimiihdmiaabdhii...i.dgmmdddlmdidgd.d\
d..fddddljddddi.icdijdgadadi.i.lii.lddhiiidddildiidi.d.gddmdighdidddjdddim.ldidajdhgbd.id.hghkigdh.d\
.imdii..mddiidadj.jdmjadi.diiiddg.d.hikh.did..diidka.dddiidkhk.dddkdmhmbaiij.iiadmidkijidicd..gm.dmd\
idiikdhi.dcmmg.m.hmddkjdb.ddddiigmidail.dldddbdiihddlddmmlidd.iil.iddddk..dmidagdddd..m.lcghdmhdhgih\
aid..lddiigdh.dddg.cggimdkgd.gilidddi.hdl.idlkhlddddddihmdim.gdg.ddd.biidddii.dikm.hdddhmd.ijii.dddd\
dhl.ddgld.ddildddgk..ddddddiii.h.aii.ibddimdmdaiddddd.fdddd.diddmdbddidmi....ddcdddddidadd.dgdmhjd.i\
kag.d.dlijmd.dhdidddgddlgammidlida..ldd.i.ldm...bmigd.adbdmhdiddd.mdiigdchiddiidaagdiligmmdhghidm.id\
gm.dimdicddmdiddiddmid.giimcdhm.lmccmhmidimiddjdgd.iaglkdlldiiigimd.hddlddidiiddd.di.ididfd.bkd.didi\
dhmlkii.lhhldaiadidddiiadiadbibidg.iad.dakdifdcdidihdd.kdiiiikij.bgdhiddmidadbdddlkiddhkd.kiidiidaig\
mddhjmikghkjdkddliaaldd.ddaddddk.diddddlhdmhidddii.ddgdiddgiibamad.dlicddmdlddlidaihmmdi.iddiddaikdd\
..ldmidmmidddd..diddaidihmdddlddiigm.ldi..h..imida.idid.midkdji.adldid.ddgmd.digdidlmdd.ddkjddddmhbi\
";

/// The sum of all refusals with their fields.
const SUM: u64 = 0x2b9d36f50b738fa1;

/// The sum of the answers of all lawful copies to the script.
const ANSWERED: u64 = 0xdc8890543b8081b6;

/// The script of which these are answers, the last line without a line feed.
const SCRIPT: &[u8] = b"\
counts\nnode 1\nnode 2\nnode 4\nnode 5\nring 1\nring -2\nring 4\nnext -3\nends 1\nends -4\nsides 1\nsides -4\n\
face 0\nface 1\nface 2\nadjacent 0\nadjacent 1\nadjacent 2\ncontains 3\ncontains 4\ncontains 5\nislands 0\n\
islands 1\nislands 2\nregions 0\nregions 1\nregions 2\ncommon 1 2\ncommon 2 2\ncommon 0 1\ncommon 1 3\n\
node 9223372036854775807\nnode 9223372036854775808\nring -9\nface 01\nnode x\n\n# x\n   \nends 3";

/// Numbers from a seed.
#[derive(Drop)]
struct Random {
    state: u64,
}

impl Random {
    /// The next number below `bound`, or 0.
    fn below(&mut self, bound: usize) -> usize {
        self.state = self
            .state
            .wrapping_mul(6364136223846793005)
            .wrapping_add(1442695040888963407);
        (self.state >> 33) as usize % bound.max(1)
    }
}

/// Flips a bit of a byte, if there is such a byte.
fn flip(bytes: &mut [u8], at: usize, bit: usize) {
    if at < bytes.len() {
        bytes[at] ^= 1 << (bit % 8);
    }
}

/// Exchanges the bytes from two places on, as far as there are any.
fn exchange(bytes: &mut [u8], one: usize, other: usize, count: usize) {
    for i in 0..count {
        let (from, to) = (one.saturating_add(i), other.saturating_add(i));
        if from < bytes.len() && to < bytes.len() {
            bytes.swap(from, to);
        }
    }
}

/// Exchanges the places of two edges in the rising list of ids, which have three bits each.
fn exchange_places(bytes: &mut [u8], one: usize, other: usize) {
    let at = if bytes.get(8) == Some(&1) { 312 } else { 344 };
    let (one, other) = (3 * (one % 4), 3 * (other % 4));
    if at + 1 < bytes.len() {
        let places = u16::from_le_bytes([bytes[at], bytes[at + 1]]);
        let differ = (places >> one ^ places >> other) % 8;
        let [low, high] = (places ^ differ << one ^ differ << other).to_le_bytes();
        bytes[at] = low;
        bytes[at + 1] = high;
    }
}

/// Takes so many bytes off the end.
fn shorten(bytes: &mut Vec<u8>, count: usize) {
    bytes.truncate(bytes.len().saturating_sub(count));
}

/// Puts so many bytes behind the end.
fn lengthen(bytes: &mut Vec<u8>, random: &mut Random, count: usize) -> Result<(), Fail> {
    for _ in 0..count {
        bytes.push((random.below(256) % 256) as u8)?;
    }
    Ok(())
}

/// Cuts or lengthens by some bytes or some words.
fn resize(bytes: &mut Vec<u8>, random: &mut Random) -> Result<(), Fail> {
    let count = if random.below(2) == 0 {
        random.below(24)
    } else {
        random.below(bytes.len() / 8).saturating_mul(8)
    };
    if random.below(2) == 0 {
        shorten(bytes, count);
        Ok(())
    } else {
        lengthen(bytes, random, count)
    }
}

/// Cuts or lengthens by some words of zeros.
fn resize_by_words(bytes: &mut Vec<u8>, words: usize) -> Result<(), Fail> {
    if words < 3 {
        shorten(bytes, words.saturating_mul(8));
        return Ok(());
    }
    for _ in 3..words {
        bytes.extend_from_slice(&[0; 8])?;
    }
    Ok(())
}

/// Flips so many bits, low ones of fields or any.
fn flip_some(bytes: &mut [u8], random: &mut Random, count: usize, of_fields: bool) {
    for _ in 0..count {
        if of_fields {
            let field = random.below(bytes.len() / 4).saturating_mul(4);
            flip(bytes, field, random.below(3));
        } else {
            let at = random.below(bytes.len());
            flip(bytes, at, random.below(8));
        }
    }
}

/// Exchanges two parts of so many bytes.
fn exchange_some(bytes: &mut [u8], random: &mut Random, count: usize) {
    let parts = bytes.len().checked_div(count).unwrap_or(0);
    let one = random.below(parts).saturating_mul(count);
    let other = random.below(parts).saturating_mul(count);
    exchange(bytes, one, other, count);
}

/// One damage of some kind.
fn damage(bytes: &mut Vec<u8>, random: &mut Random) -> Result<(), Fail> {
    match random.below(11) {
        0 => flip_some(bytes, random, 1, false),
        1 => flip_some(bytes, random, 2, false),
        2 => flip_some(bytes, random, 1, true),
        3 => flip_some(bytes, random, 2, true),
        4 => flip_some(bytes, random, 3, true),
        5 => exchange_some(bytes, random, 8),
        6 => exchange_some(bytes, random, 4),
        7 => resize(bytes, random)?,
        8 | 9 => {
            let count = random.below(9).saturating_mul(8).saturating_add(48);
            flip(bytes, count, random.below(3));
            resize_by_words(bytes, random.below(15))?;
        }
        _ => {
            let one = random.below(4);
            exchange_places(bytes, one, random.below(4));
        }
    }
    Ok(())
}

/// Puts the right digest into its place, if there is room for it.
fn seal(bytes: &mut [u8]) {
    if bytes.len() >= 48 {
        let digest = Sha256::digest(&bytes[48..]);
        bytes[16..48].copy_from_slice(&digest);
    }
}

/// The letter of what is said of a copy.
fn letter(told: Option<FileFault>) -> char {
    match told {
        None => '.',
        Some(FileFault::NotWords { .. }) => 'a',
        Some(FileFault::NotPemb { .. }) => 'b',
        Some(FileFault::UnknownForm { .. }) => 'c',
        Some(FileFault::Length { .. }) => 'd',
        Some(FileFault::Digest { .. }) => 'e',
        Some(FileFault::Count { .. }) => 'f',
        Some(FileFault::Sequence(_)) => 'g',
        Some(FileFault::Directory { .. }) => 'h',
        Some(FileFault::Name { .. }) => 'i',
        Some(FileFault::Place { .. }) => 'j',
        Some(FileFault::Start { .. }) => 'k',
        Some(FileFault::RegionPart { .. }) => 'l',
        Some(FileFault::Padding { .. }) => 'm',
    }
}

/// The sum of no bytes.
const EMPTY: u64 = 0xcbf29ce484222325;

/// The sum with some bytes joined, one by one.
fn summed(sum: u64, bytes: &[u8]) -> u64 {
    let mut sum = sum;
    for byte in bytes {
        sum = (sum ^ *byte as u64).wrapping_mul(0x100000001b3);
    }
    sum
}

/// The sum of some bytes.
pub(super) fn sum_of(bytes: &[u8]) -> u64 {
    summed(EMPTY, bytes)
}

/// The same with a refusal.
fn summed_fault(alloc: Global, sum: u64, told: Option<FileFault>) -> Result<u64, Fail> {
    match told {
        None => Ok(sum),
        Some(fault) => Ok(summed(sum, format!(in alloc; "{fault:?}")?.as_bytes())),
    }
}

/// The answers of a file to a script.
pub(super) fn answers(alloc: Global, file: &[u8], text: &[u8]) -> Result<Vec<u8>, Fail> {
    let mut script = MemorySource::new(text, 4096, &[]);
    let mut out = MemorySink::new(alloc, &[]);
    match served::<Brand>(alloc, Blank::new(1), file, &mut script, &mut out) {
        Some(Ok(())) => Ok(out.bytes().to_vec(alloc)?),
        _ => Err(Fail::new("not answered to the end")),
    }
}

/// How many lines end in some bytes.
pub(super) fn lines_in(bytes: &[u8]) -> usize {
    bytes.iter().filter(|byte| **byte == b'\n').count()
}

/// What is wrong with a file.
fn fault_counted<C: Ledger>(alloc: Global, blank: Blank, bytes: &[u8]) -> Option<FileFault>
    requires name { blank.name ≡ C.name }
    requires parts { blank.parts ≡ C.parts }
    requires some { 0 < blank.parts }
{
    let mut steps = Steps::<C>::new(alloc, blank);
    open(bytes, &mut steps).err()
}

/// What is wrong with a file.
fn fault_of(alloc: Global, bytes: &[u8]) -> Option<FileFault> {
    fault_counted::<Brand>(alloc, Blank::new(1), bytes)
}

/// The sum with the answers of a file joined, where it is lawful.
fn summed_answers(
    alloc: Global,
    sum: u64,
    told: Option<FileFault>,
    file: &[u8],
) -> Result<u64, Fail> {
    match told {
        None => Ok(summed(sum, &answers(alloc, file, SCRIPT)?)),
        Some(_) => Ok(sum),
    }
}

/// The file that is damaged at this turn.
fn whole(alloc: Global, turn: usize) -> Result<Vec<u8>, Fail> {
    if turn % 2 == 0 {
        Ok(bytes_of(alloc, &old_island())?)
    } else {
        Ok(bytes_of(alloc, &island())?)
    }
}

#[test]
fn each_damaged_copy_is_told_or_answers(rt: HostRuntime) -> Result<(), Fail> {
    let alloc = rt.alloc();
    let mut random = Random { state: 5 };
    let mut as_it_is = String::new(alloc);
    let mut sealed = String::new(alloc);
    let mut faults = EMPTY;
    let mut answered = EMPTY;
    for turn in 0..2000 {
        let mut file = whole(alloc, turn)?;
        damage(&mut file, &mut random)?;
        let told = fault_of(alloc, &file);
        as_it_is.push(letter(told))?;
        faults = summed_fault(alloc, faults, told)?;
        answered = summed_answers(alloc, answered, told, &file)?;
        seal(&mut file);
        let told = fault_of(alloc, &file);
        sealed.push(letter(told))?;
        faults = summed_fault(alloc, faults, told)?;
        answered = summed_answers(alloc, answered, told, &file)?;
    }
    assert_eq!(rt; as_it_is.as_str(), AS_IT_IS);
    assert_eq!(rt; sealed.as_str(), SEALED);
    assert_eq!(rt; faults, SUM);
    assert_eq!(rt; answered, ANSWERED);
    Ok(())
}

/// The triangle's file with edge 1 the other way round, and the digest of that.
#[test]
fn an_edge_turned_round_is_answered_so(rt: HostRuntime) -> Result<(), Fail> {
    let alloc = rt.alloc();
    let mut words = triangle();
    words[2] = 17503740643179206979;
    words[3] = 5278126913600717774;
    words[4] = 3487100673592913456;
    words[5] = 5686580516104849615;
    words[24] = 1;
    let file = bytes_of(alloc, &words)?;
    let said = answers(alloc, &file, b"ring 1\nends 1\nsides 1\nnode 1\nface 1\n")?;
    assert_eq!(rt;
        said.as_slice(),
        b"ring 1: 1 -3 -2\nends 1: 2 1\nsides 1: 0 1\nnode 1: -1 -3\nface 1: -1 2 3\n".as_slice()
    );
    Ok(())
}
