//! The largest declaration of examples/, byte for byte that of examples/xfs.wq without its unsure lines, and its
//! workqueues, as tests/cli/examples.sh tests.

/// examples/xfs.wq, without the lines that begin with `flush?` or `flushwq?`.
pub const LARGEST: &str = "\
# XFS, and the kernel's writeback above it.
# Sources: Linux 6.1.192, fs/xfs
# README.md says what the first word of a comment means, and how a place is cited.
#
# Not sure (`flush?`): the waits of a transaction that finds no free block, not even in the reserve pool, at
# xfs_trans.c:293 xfs_trans_alloc, and those of a file system that is being shut down. Few come there.
# Not declared: xlog_cil_push_work waits for older pushes on its own workqueue (xfs_log_cil.c:940 xlog_cil_order_write,
# xfs_log_cil.c:946 xlog_cil_order_write). It waits only for those that have started: an older push puts itself on the
# list of these (xfs_log_cil.c:1260 xlog_cil_push_work), and makes the context of the next one only after that
# (xfs_log_cil.c:1291 xlog_cil_push_work).
# Not declared: waits for locks of inodes and of pages. Their holders wait for nothing for which these \
    items don't wait anyway.

item xfs_flush_inodes_worker  # queued to xfs-sync at xfs_super.c:622 xfs_flush_inodes
item xfs_log_worker           # delayed work, queued to xfs-sync at xfs_log.c:1441 xfs_log_work_queue
item wb_workfn                # delayed work, queued to writeback at fs/fs-writeback.c:139 wb_wakeup
item xfs_inodegc_worker       # delayed work, queued to xfs-inodegc at xfs_icache.c:2131 xfs_inodegc_queue, \
    xfs_icache.c:449 xfs_inodegc_queue_all
item xfs_blockgc_worker       # delayed work, queued to xfs-blockgc at xfs_icache.c:216 xfs_blockgc_queue, \
    xfs_icache.c:1544 xfs_blockgc_flush_all
item xfs_reclaim_worker       # delayed work, queued to xfs-reclaim at xfs_icache.c:195 xfs_reclaim_work_queue
item xfs_end_io               # queued to xfs-conv at xfs_aops.c:186 xfs_end_bio
item iomap_dio_complete_work  # queued to dio at fs/iomap/direct-io.c:167 iomap_dio_bio_end_io
item xfs_btree_split_worker   # queued to xfsalloc at libxfs/xfs_btree.c:2958 xfs_btree_split
item xlog_cil_push_work       # queued to xfs-cil at xfs_log_cil.c:1545 xlog_cil_push_now
item xlog_ioend_work          # queued to xfs-log at xfs_log.c:1844 xlog_bio_end_io
item xfs_buf_ioend_work       # queued to xfs-buf at xfs_buf.c:1359 xfs_buf_ioend_async, for synchronous I/O too
item xlog_discard_endio_work  # queued to xfsdiscard at xfs_log_cil.c:723 xlog_discard_endio

# Five waits come again and again:
# - The log is forced: xlog_cil_push_now flushes the whole of xfs-cil.
# - The log is forced synchronously: xlog_wait_on_iclog sleeps until a log buffer is on disk, \
    which xlog_ioend_work says.
# - A metadata block is read: xfs_buf_iowait sleeps until xfs_buf_ioend_work has completed it \
    (xfs_buf.c:1341 xfs_buf_ioend).
# - There is no space in the log: xlog_grant_head_wait sleeps until a kernel thread, xfsaild, \
    has written metadata blocks, which
#   goes by xlog_cil_push_work, xlog_ioend_work and xfs_buf_ioend_work. \
    Each item that starts a transaction has these three.
# - A page is being written: folio_wait_writeback and its like sleep until that has ended. \
    For pages of unwritten extents, of
#   copies on write and behind the end of the file xfs_end_io says so (xfs_aops.c:134 xfs_end_ioend), \
    for others an interrupt.

# Who frees or takes blocks locks the head of their group, the AGF. Its holder may have handed a \
    split to another item, and
# sleep until that is done.
# When the last reference of an unlinked inode is dropped, xfs_inodegc_queue waits if memory is short, \
    or too many inodes wait.
flush xfs_flush_inodes_worker wb_workfn              # done fs/fs-writeback.c:2822 sync_inodes_sb, \
    from xfs_super.c:600 xfs_flush_inodes_worker
flush xfs_flush_inodes_worker xfs_end_io             # done fs/fs-writeback.c:2703 wait_sb_inodes, by sync_inodes_sb
flush xfs_flush_inodes_worker xfs_inodegc_worker     # flush xfs_icache.c:2137 xfs_inodegc_queue, \
    if iput at fs/fs-writeback.c:2707 wait_sb_inodes drops the last reference
flushwq xfs_log_worker xlog_cil_push_work            # flushwq xfs_log_cil.c:1521 xlog_cil_push_now, \
    by xfs_log_force at xfs_log.c:1500 xfs_log_worker
flush xfs_log_worker xlog_ioend_work                 # done xfs_log.c:890 xlog_wait_on_iclog, \
    by the synchronous commit of the superblock at xfs_log.c:1498 xfs_log_worker
flush xfs_log_worker xfs_buf_ioend_work              # done xfs_log.c:307 xlog_grant_head_wait, by the same commit; \
    interpretation: through xfsaild
# A page that is dirty again, and still being written.
flush wb_workfn xfs_end_io                           # done mm/page-writeback.c:2372 write_cache_pages, \
    in the writeback that sync_inodes_sb asks for
flush wb_workfn xfs_btree_split_worker               # done libxfs/xfs_btree.c:2959 xfs_btree_split, \
    by an allocation of writeback at xfs_aops.c:352 xfs_map_blocks; interpretation: a long path, by reading
flushwq wb_workfn xlog_cil_push_work                 # flushwq xfs_log_cil.c:1521 xlog_cil_push_now, \
    for a stale pinned buffer at xfs_buf.c:1119 xfs_buf_lock
flush wb_workfn xlog_ioend_work                      # done xfs_log.c:890 xlog_wait_on_iclog, \
    at xfs_extent_busy.c:579 xfs_extent_busy_flush
flush wb_workfn xlog_discard_endio_work              # done xfs_extent_busy.c:587 xfs_extent_busy_flush
flush wb_workfn xfs_buf_ioend_work                   # done xfs_buf.c:1611 xfs_buf_iowait
flushwq xfs_inodegc_worker xlog_cil_push_work        # flushwq xfs_log_cil.c:1521 xlog_cil_push_now, \
    at xfs_buf.c:1119 xfs_buf_lock, by xfs_inactive at xfs_icache.c:1879 xfs_inodegc_inactivate
flush xfs_inodegc_worker xfs_btree_split_worker      # done xfs_buf.c:1120 xfs_buf_lock; interpretation: \
    an AGF whose holder waits for a split
flush xfs_inodegc_worker xlog_ioend_work             # done xfs_log.c:890 xlog_wait_on_iclog, \
    at xfs_extent_busy.c:579 xfs_extent_busy_flush
flush xfs_inodegc_worker xlog_discard_endio_work     # done xfs_extent_busy.c:587 xfs_extent_busy_flush
flush xfs_inodegc_worker xfs_buf_ioend_work          # done xfs_buf.c:1611 xfs_buf_iowait
flushwq xfs_blockgc_worker xlog_cil_push_work        # flushwq xfs_log_cil.c:1521 xlog_cil_push_now, \
    at xfs_buf.c:1119 xfs_buf_lock
flush xfs_blockgc_worker xfs_btree_split_worker      # done xfs_buf.c:1120 xfs_buf_lock; interpretation: \
    an AGF whose holder waits for a split
flush xfs_blockgc_worker xlog_ioend_work             # done xfs_log.c:890 xlog_wait_on_iclog, \
    at xfs_extent_busy.c:579 xfs_extent_busy_flush
flush xfs_blockgc_worker xlog_discard_endio_work     # done xfs_extent_busy.c:587 xfs_extent_busy_flush
flush xfs_blockgc_worker xfs_buf_ioend_work          # done xfs_buf.c:1611 xfs_buf_iowait
# Before it takes blocks from behind the end of a file it waits until nobody writes past the page cache there.
flush xfs_blockgc_worker iomap_dio_complete_work     # done xfs_bmap_util.c:733 xfs_free_eofblocks, \
    ended at fs/iomap/direct-io.c:113 iomap_dio_complete
# It may drop the last reference of an inode that was unlinked meanwhile (xfs_icache.c:1482 xfs_blockgc_scan_inode).
flush xfs_blockgc_worker wb_workfn                   # done fs/inode.c:700 evict; interpretation: only for one that runs
flush xfs_blockgc_worker xfs_end_io                  # done mm/truncate.c:449 truncate_inode_pages_range, \
    from fs/inode.c:705 evict
flush xfs_blockgc_worker xfs_inodegc_worker          # flush xfs_icache.c:2137 xfs_inodegc_queue, \
    from fs/inode.c:718 evict
# A change to the tree of extents may split two blocks. The second split is handed on, since the first one has taken a
# block already (libxfs/xfs_btree.c:2946 xfs_btree_split).
flush xfs_end_io xfs_btree_split_worker              # done libxfs/xfs_btree.c:2959 xfs_btree_split, \
    from xfs_iomap.c:599 xfs_iomap_write_unwritten
flushwq xfs_end_io xlog_cil_push_work                # flushwq xfs_log_cil.c:1521 xlog_cil_push_now, \
    at xfs_extent_busy.c:579 xfs_extent_busy_flush or xfs_buf.c:1119 xfs_buf_lock
flush xfs_end_io xlog_ioend_work                     # done xfs_log.c:890 xlog_wait_on_iclog, \
    at xfs_extent_busy.c:579 xfs_extent_busy_flush
flush xfs_end_io xlog_discard_endio_work             # done xfs_extent_busy.c:587 xfs_extent_busy_flush
flush xfs_end_io xfs_buf_ioend_work                  # done xfs_buf.c:1611 xfs_buf_iowait
# The end of a direct write changes extents as xfs_end_io does (xfs_file.c:489 xfs_dio_write_end_io,
# xfs_file.c:501 xfs_dio_write_end_io). Then it drops the pages of the page cache that it made stale.
flush iomap_dio_complete_work xfs_end_io             # done mm/truncate.c:697 invalidate_inode_pages2_range, \
    from fs/iomap/direct-io.c:111 iomap_dio_complete
flush iomap_dio_complete_work xfs_btree_split_worker # done libxfs/xfs_btree.c:2959 xfs_btree_split, \
    from xfs_iomap.c:599 xfs_iomap_write_unwritten
flushwq iomap_dio_complete_work xlog_cil_push_work   # flushwq xfs_log_cil.c:1521 xlog_cil_push_now, \
    at xfs_extent_busy.c:579 xfs_extent_busy_flush or xfs_buf.c:1119 xfs_buf_lock
flush iomap_dio_complete_work xlog_ioend_work        # done xfs_log.c:890 xlog_wait_on_iclog, \
    at xfs_extent_busy.c:579 xfs_extent_busy_flush
flush iomap_dio_complete_work xlog_discard_endio_work # done xfs_extent_busy.c:587 xfs_extent_busy_flush
flush iomap_dio_complete_work xfs_buf_ioend_work     # done xfs_buf.c:1611 xfs_buf_iowait
# An allocation that finds only blocks which were freed a moment ago forces the log, as at
# libxfs/xfs_alloc.c:1648 xfs_alloc_ag_vextent_near, and with -o discard it waits until these \
    blocks are discarded, which
# xfs_log_cil.c:707 xlog_discard_endio_work says.
flushwq xfs_btree_split_worker xlog_cil_push_work    # flushwq xfs_log_cil.c:1521 xlog_cil_push_now, \
    at xfs_extent_busy.c:579 xfs_extent_busy_flush
flush xfs_btree_split_worker xlog_ioend_work         # done xfs_log.c:890 xlog_wait_on_iclog, \
    at xfs_extent_busy.c:579 xfs_extent_busy_flush
flush xfs_btree_split_worker xlog_discard_endio_work # done xfs_extent_busy.c:587 xfs_extent_busy_flush
flush xfs_btree_split_worker xfs_buf_ioend_work      # done xfs_buf.c:1611 xfs_buf_iowait
flush xlog_cil_push_work xlog_ioend_work             # done xfs_log.c:890 xlog_wait_on_iclog, \
    at xfs_log_cil.c:1359 xlog_cil_push_work, and xfs_log.c:2918 xlog_state_get_iclog_space

# Not sure: a file system that has no free block. These transactions may use the reserve pool. Once that is used up, at
# xfs_mount.c:1225 xfs_mod_freecounter, they flush all that could free a block, and try again.
# Only in a file system that had no room to reserve blocks for its tree of free inodes \
    when it was mounted (m_finobt_nores).
# Not sure: a block of metadata that can't be written for good. The file system is shut down then, \
    and before that, the log is
# forced synchronously (xfs_buf.c:1260 xfs_buf_ioend_handle_error, xfs_fsops.c:540 xfs_do_force_shutdown).

# Beside the source (source/README.md): the sites in reach that no line above cites. What a disk ends, \
    it ends in an interrupt.
# files: fs/xfs/*.c fs/xfs/*.h fs/xfs/libxfs/*.c fs/xfs/libxfs/*.h fs/fs-writeback.c fs/inode.c fs/iomap/buffered-io.c
# files: fs/iomap/direct-io.c mm/backing-dev.c mm/page-writeback.c mm/truncate.c
#
# The sleeps behind the calls that the lines name: fs/fs-writeback.c:191 wb_wait_for_completion for writeback,
# fs/fs-writeback.c:1557 __inode_wait_for_writeback for that of one inode, \
    mm/page-writeback.c:3058 folio_wait_writeback for that of
# a page, fs/inode.c:2437 __inode_dio_wait for direct writes.
# Writeback of a page allocates bios from pools, at fs/iomap/buffered-io.c:1488 iomap_alloc_ioend and
# fs/iomap/buffered-io.c:1519 iomap_chain_bio. For pages that xfs_end_io completes it gives the bios back, too
# (fs/iomap/buffered-io.c:1329 iomap_finish_ioend), so that wb_workfn waits for xfs_end_io there.
# More waits of the items that commit transactions, for items that their lines name. \
    A commit that finds too much in memory waits
# until xlog_cil_push_work has begun, at xfs_log_cil.c:1480 xlog_cil_push_background. \
    A synchronous one waits for that at
# xfs_log_cil.c:1748 xlog_cil_force_seq, and at xfs_log.c:3307 xlog_force_lsn until xlog_ioend_work has \
    ended the log buffer before
# its own (xfs_log.c:2871 xlog_state_done_syncing). A direct write that is to be on disk when it \
    ends waits as these do, at
# fs/iomap/direct-io.c:122 iomap_dio_complete. Whoever writes pages takes an ioend of a pool, at \
    fs/iomap/buffered-io.c:1488 iomap_alloc_ioend:
# xfs_end_io gives it back when it says that the pages are written, else an interrupt does; the lines have that wait.
# no wait: xfs_trans.c xfs_trans_alloc_inode xfs_blockgc_free_quota(ip): a forced reservation meets no limit, \
    and what comes here forces it (xfs_iomap.c:582 xfs_iomap_write_unwritten)
# no wait: fs-writeback.c inode_sleep_on_writeback prepare_to_wait(wqh): whoever writes the inode has started
# no wait: inode.c inode_wait_for_lru_isolating __wait_on_bit(wqh): whoever isolates it has started
# no wait: buffered-io.c iomap_submit_ioend submit_bio(ioend->io_bio): the disk ends requests
# no wait: buffered-io.c iomap_chain_bio submit_bio(prev): the disk ends requests
# no wait: xfs_bmap_util.c xfs_zero_extent blkdev_issue_zeroout(target->bt_bdev): \
    only for a write without the page cache, on DAX (xfs_iomap.c:276 xfs_iomap_write_direct)
# no wait: xfs_buf.c xfs_buf_wait_unpin add_wait_queue(&bp->b_waiters): only a write waits. \
    xfs_buf_ioend_work writes again what it has locked, which nobody pins meanwhile
# no wait: xfs_buf.c xfs_buf_ioapply_map bio_alloc(bp->b_target->bt_bdev): a bio comes back when the disk ends it
# no wait: xfs_buf.c xfs_buf_ioapply_map submit_bio(bio): the disk ends requests
# no wait: xfs_inode.c __xfs_iunpin_wait prepare_to_wait(wq): only after a shutdown (xfs_icache.c:918 xfs_reclaim_inode)
# no wait: xfs_linux.h delay schedule_timeout_uninterruptible(ticks): a time that passes
# no wait: xfs_log.c xlog_write_iclog blkdev_issue_flush(log->l_mp->m_ddev_targp->bt_bdev): the disk ends it
# no wait: xfs_log.c xlog_write_iclog submit_bio(split): the disk ends requests
# no wait: xfs_log.c xlog_write_iclog submit_bio(&iclog->ic_bio): the disk ends requests
# no wait: xfs_log_cil.c xlog_discard_busy_extents submit_bio(bio): the disk ends requests
# no wait: xfs_log_priv.h xlog_shutdown_wait wait_var_event(&log->l_opstate): only after a shutdown
# no wait: xfs_trans.c xfs_trans_alloc sb_start_intwrite(mp->m_super): a process thaws the file system
# no wait: page-writeback.c write_cache_pages lock_page(page): whoever has the page has started, or the disk ends a read
# no wait: truncate.c truncate_inode_pages_range folio_lock(folio): the same
";

/// The workqueues of examples/xfs.assign, as if each had a rescuer.
pub const LARGEST_LANES: &str = "\
# XFS and writeback as Linux 6.1.192 has them: twelve workqueues.
# Sources: Linux 6.1.192, fs/xfs
# All but wq 2 and wq 11 have WQ_MEM_RECLAIM; those two have no rescuer at all.
wq 0 xlog_ioend_work                          # xfs-log, xfs_log.c:1646 xlog_alloc_log, WQ_HIGHPRI
wq 1 xfs_buf_ioend_work                       # xfs-buf, xfs_super.c:528 xfs_init_mount_workqueues, max_active 1
wq 2 xlog_discard_endio_work                  # xfsdiscard, xfs_super.c:2231 xfs_init_workqueues, no WQ_MEM_RECLAIM
wq 3 xlog_cil_push_work                       # xfs-cil, xfs_log_cil.c:1844 xlog_cil_init, max_active 4
wq 4 xfs_btree_split_worker                   # xfsalloc, xfs_super.c:2226 xfs_init_workqueues, one for all file systems
wq 5 xfs_end_io                               # xfs-conv, xfs_super.c:534 xfs_init_mount_workqueues
wq 6 xfs_reclaim_worker                       # xfs-reclaim, xfs_super.c:540 xfs_init_mount_workqueues
wq 7 xfs_blockgc_worker                       # xfs-blockgc, xfs_super.c:546 xfs_init_mount_workqueues
wq 8 xfs_inodegc_worker                       # xfs-inodegc, xfs_super.c:552 xfs_init_mount_workqueues, max_active 1
wq 9 wb_workfn                                # writeback, mm/backing-dev.c:236 default_bdi_init
wq 10 iomap_dio_complete_work                 # dio, fs/direct-io.c:564 sb_init_dio_done_wq, \
    made at the first direct write that isn't waited for
wq 11 xfs_flush_inodes_worker xfs_log_worker  # xfs-sync, xfs_super.c:558 xfs_init_mount_workqueues, no WQ_MEM_RECLAIM
";

/// All of its items on one workqueue.
pub const LARGEST_ON_ONE: &str = "\
wq 0 xfs_flush_inodes_worker xfs_log_worker wb_workfn xfs_inodegc_worker xfs_blockgc_worker xfs_reclaim_worker \
    xfs_end_io iomap_dio_complete_work xfs_btree_split_worker xlog_cil_push_work xlog_ioend_work xfs_buf_ioend_work \
    xlog_discard_endio_work
";
